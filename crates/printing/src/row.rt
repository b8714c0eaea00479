ghost use Rattle.std.specs.Prelude.{◌≡◌, ◌+◌, ◌≤◌, ◌++◌, length, decimal};
ghost use Rattle.printing.specs.Rows.{held_row, follows_row, clash_row, refused_row, settled_row, roomy, fits, Rowed};

use crate::entry::Entry;
use crate::fault::PrintFault;
use crate::put::Row;
use exact::report::Report;
use exact::shown::Parts;

// The bytes that suffice for any row.
pub const ROW_BYTES: usize = 2048;

// The held lines of the largest sheet, and the line that clashes with them: by number, since printing does not know the sheet.
pub const MOST_ENTRIES: usize = 49;

// The bytes that suffice for a row of fixed parts: a word, and two numbers or a value.
const PLAIN_BYTES: usize = 64;

// Begins a row with a label and a word.
fn begun<const N: usize>(label: u32, word: &str) -> Row<N>
    requires { 10 + length word.now ≤ N }
    ensures after { result.text.bytes ≡ decimal label ++ word.now }
    ensures short { length result.text.bytes ≤ 10 + length word.now }
{
    let mut row = Row::new();
    row.put_number(label);
    row.put(word);
    row
}

// `LABEL held PLACE`. This call and those below write the row at the start of the slice, and answer its length.
pub fn held_row(out: &mut [u8], label: u32, place: usize) -> Result<usize, PrintFault>
    ensures { Rowed (roomy out.old) (held_row label place) out.old out.new result }
{
    let mut row = begun::<PLAIN_BYTES>(label, " held ");
    row.put_number(place);
    row.put("\n");
    row.write(out)
}

// `LABEL follows`.
pub fn follows_row(out: &mut [u8], label: u32) -> Result<usize, PrintFault>
    ensures { Rowed (roomy out.old) (follows_row label) out.old out.new result }
{
    begun::<PLAIN_BYTES>(label, " follows\n").write(out)
}

// `LABEL clash LABEL:MULTIPLIER ..`.
pub fn clash_row(out: &mut [u8], label: u32, entries: &[Entry]) -> Result<usize, PrintFault>
    ensures { Rowed (fits entries.now out.old) (clash_row label entries.now) out.old out.new result }
{
    if entries.len() > MOST_ENTRIES {
        return Err(PrintFault::Room);
    }
    let mut row = begun::<ROW_BYTES>(label, " clash");
    row.put_entries(entries);
    row.put("\n");
    row.write(out)
}

// `LABEL refused NUMBER COLUMN`.
pub fn refused_row(out: &mut [u8], label: u32, report: Report) -> Result<usize, PrintFault>
    ensures { Rowed (roomy out.old) (refused_row label report) out.old out.new result }
{
    let mut row = begun::<PLAIN_BYTES>(label, " refused ");
    row.put_number(report.number);
    row.put(" ");
    row.put_number(report.place);
    row.put("\n");
    row.write(out)
}

// `qN = VALUE`, of a set point that is settled.
pub fn settled_row(out: &mut [u8], set_point: usize, value: Parts) -> Result<usize, PrintFault>
    ensures { Rowed (roomy out.old) (settled_row set_point value) out.old out.new result }
{
    let mut row = Row::<PLAIN_BYTES>::new();
    row.put("q");
    row.put_number(set_point);
    row.put(" = ");
    row.put_value(value);
    row.put("\n");
    row.write(out)
}
