ghost use Rattle.sheet.specs.Contents.{contents};
ghost use Rattle.recipe.specs.Run.{Tried};

use elimination::record::Record;
use exact::number::Number;
use ledger::limits::MOST_SET_POINTS;
use placing::column::refusal_of;
use placing::fault::TextFault;
use placing::numbers::read_numbers;
use sheet::answer::Stated;
use sheet::sheet::Sheet;

// The numbers of a line of the largest sheet.
const MOST_NUMBERS: usize = MOST_SET_POINTS + 1;

// Reads a text as a line, and states it. A fault of any layer passes up, with its column in the text.
pub(crate) fn state_text<K: Number>(
    sheet: &mut Sheet<'_, K>,
    text: &[u8],
    label: u32,
    records: &mut [Record<K>],
) -> Result<Stated, TextFault>
    ensures { Tried K.kind (contents sheet.old) label text.now records.old result (contents sheet.new) records.new }
{
    let n = sheet.set_points();
    // read_numbers writes over a lent slice, on no heap.
    let mut numbers = [0; MOST_NUMBERS];
    let line = read_numbers(text, n, &mut numbers)?;
    sheet
        .state(&numbers[..n + 1], label, records)
        .map_err(|fault| refusal_of(fault, &line, n))
}
