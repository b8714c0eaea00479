ghost use Rattle.std.specs.Prelude.{◌≤◌, length};
ghost use Rattle.recipe.specs.Added.{Added};
ghost use Rattle.recipe.specs.Evidence.{clash_count, Within, Evident, answer_row, fault_row};

use crate::adding::{add_clash, add_follows, add_held, add_refused};
use elimination::fault::SheetFault;
use elimination::record::Record;
use exact::report::Report;
use exact::shown::Shown;
use placing::fault::TextFault;
use sheet::answer::Stated;
use std::alloc::AllocError;

// Adds the row of a line that was answered so. There are at most 49 records here and below, the held lines of the largest sheet and the
// refused one: the sheet itself takes any number, so the bound is no part of a type of its.
pub(crate) fn add_answer<K: Shown>(
    out: &mut Vec<u8>,
    label: u32,
    answer: Result<Stated, TextFault>,
    records: &[Record<K>],
) -> Result<(), AllocError>
    requires few { length records.now ≤ 49 }
    requires evident { Evident (length records.now) answer }
    ensures { Added (answer_row K.Number.kind label answer records.now) out.old.items out.new.items result }
{
    match answer {
        Ok(Stated::Held { place }) => add_held(out, label, place),
        Ok(Stated::Follows) => add_follows(out, label),
        Err(fault) => add_fault(out, label, fault, records),
    }
}

// A clash is told by its evidence, which stands in the first records.
fn add_fault<K: Shown>(
    out: &mut Vec<u8>,
    label: u32,
    fault: TextFault,
    records: &[Record<K>],
) -> Result<(), AllocError>
    requires few { length records.now ≤ 49 }
    requires evident { Within (length records.now) (clash_count fault) }
    ensures { Added (fault_row K.Number.kind label fault records.now (clash_count fault)) out.old.items out.new.items result }
{
    match fault {
        TextFault::Sheet {
            fault: SheetFault::Clash { count },
            ..
        } => add_clash(out, label, &records[..count]),
        _ => add_refused(out, label, Report::from(fault)),
    }
}
