ghost use Rattle.std.specs.Prelude.{◌≡◌, IfOk};
ghost use Rattle.printing.specs.Rows.{refused_row};
ghost use Rattle.placing.specs.Faults.{text_report};
ghost use Rattle.recipe.specs.Transcribed.{Transcribed};

use crate::adding::add_refused;
use crate::working::worked;
use cutting::lines::Lines;
use exact::report::Report;
use placing::fault::TextFault;
use placing::input::open_input;
use std::alloc::{AllocError, Global};

// All that is printed of an input.
pub fn transcript(heap: Global, input: &[u8]) -> Result<Vec<u8>, AllocError>
    ensures { IfOk result (λ v. Transcribed input.now v.items) }
{
    let mut lines = Lines::of(input);
    match open_input(&mut lines) {
        Ok(heading) => worked(heap, heading, lines),
        Err(fault) => refused(heap, fault),
    }
}

// An input that is not opened is told in one row, with label 0.
fn refused(heap: Global, fault: TextFault) -> Result<Vec<u8>, AllocError>
    ensures { IfOk result (λ v. v.items ≡ refused_row 0 (text_report fault)) }
{
    let mut out = Vec::new(heap);
    add_refused(&mut out, 0, Report::from(fault))?;
    Ok(out)
}
