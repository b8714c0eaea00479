ghost use Rattle.std.specs.Prelude.{◌≤◌, length, IfOk, OnOk};
ghost use Rattle.cutting.specs.Taken.{named};
ghost use Rattle.sheet.specs.Contents.{contents};
ghost use Rattle.recipe.specs.Labels.{Counted};
ghost use Rattle.recipe.specs.Run.{Adds, SheetDone};
ghost use Rattle.recipe.specs.Transcribed.{Worked};

use crate::answering::add_answer;
use crate::settling::add_all_settled;
use crate::stating::state_text;
use cutting::heading::{Heading, KindLetter};
use cutting::lines::Lines;
use elimination::record::Record;
use exact::shown::Shown;
use exact::value::zero;
use fractions::ratio::Ratio;
use residues::index::Index;
use residues::parity::Parity;
use sheet::sheet::Sheet;
use sheet::size::measure;
use std::alloc::{AllocError, Global};

// Works the lines after a heading, in the numbers of its kind.
// Each call here asks that the labels are counted, and not the type Lines: the bound is the recipe's, 16,384 bytes, so that a label fits.
pub(crate) fn worked(
    heap: Global,
    heading: Heading,
    lines: Lines<'_>,
) -> Result<Vec<u8>, AllocError>
    requires size { (1 ≤ heading.n) × (heading.n ≤ 48) }
    requires counted { Counted lines }
    ensures { IfOk result (λ v. Worked heading.kind heading.n (named lines.entry) v.items) }
{
    // Each arm is of another type of numbers.
    match heading.kind {
        KindLetter::R => worked_in::<Ratio>(heap, heading.n, lines),
        KindLetter::P => worked_in::<Parity>(heap, heading.n, lines),
        KindLetter::I => worked_in::<Index>(heap, heading.n, lines),
    }
}

// States the lines on a sheet of n set points, and then adds those that are settled.
fn worked_in<K: Shown + Clone>(
    heap: Global,
    n: usize,
    lines: Lines<'_>,
) -> Result<Vec<u8>, AllocError>
    requires size { (1 ≤ n) × (n ≤ 48) }
    requires counted { Counted lines }
    ensures { IfOk result (λ v. SheetDone K.Number.kind n (named lines.entry) v.items) }
{
    let needed = measure(n, usize::MAX).unwrap();
    let nought = zero::<K>();
    let mut memory = vec![in heap; nought; needed]?;
    let blank = Record {
        place: 0,
        label: 0,
        multiplier: nought,
    };
    let mut records = vec![in heap; blank; n + 1]?;
    let mut sheet = Sheet::make(n, 1, &mut memory);
    let mut out = Vec::new(heap);
    add_lines(&mut out, &mut sheet, &mut records, lines)?;
    add_all_settled(&mut out, &sheet)?;
    Ok(out)
}

// Adds the row of each line that is not empty.
fn add_lines<K: Shown>(
    out: &mut Vec<u8>,
    sheet: &mut Sheet<'_, K>,
    records: &mut [Record<K>],
    lines: Lines<'_>,
) -> Result<(), AllocError>
    requires few { length records.old ≤ 49 }
    requires counted { Counted lines }
    ensures { OnOk result (Adds K.Number.kind (length records.old) (contents sheet.old) (named lines.entry) out.old.items out.new.items (contents sheet.new)) }
{
    for line in lines {
        let label = line.label as u32;
        let answer = state_text(sheet, line.bytes, label, records);
        add_answer(out, label, answer, records)?;
    }
    Ok(())
}
