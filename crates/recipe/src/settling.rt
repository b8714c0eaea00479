ghost use Rattle.std.specs.Prelude.{◌≡◌, ◌++◌, OnOk};
ghost use Rattle.sheet.specs.Contents.{contents};
ghost use Rattle.recipe.specs.Added.{Added};
ghost use Rattle.recipe.specs.Run.{settled_one, settled_rows};

use crate::adding::{add_settled, parts_of};
use exact::shown::Shown;
use sheet::sheet::Sheet;
use std::alloc::AllocError;

// Adds a row for each settled set point, rising.
pub(crate) fn add_all_settled<K: Shown>(
    out: &mut Vec<u8>,
    sheet: &Sheet<'_, K>,
) -> Result<(), AllocError>
    ensures { OnOk result (out.new.items ≡ out.old.items ++ settled_rows K.Number.kind (contents sheet.now) (contents sheet.now).n) }
{
    // q is a set point's number, and indexes nothing.
    for q in 1..=sheet.set_points() {
        add_if_settled(out, sheet, q)?;
    }
    Ok(())
}

fn add_if_settled<K: Shown>(
    out: &mut Vec<u8>,
    sheet: &Sheet<'_, K>,
    q: usize,
) -> Result<(), AllocError>
    ensures { Added (settled_one K.Number.kind (contents sheet.now) q) out.old.items out.new.items result }
{
    match sheet.settled(q) {
        Ok(Some(value)) => add_settled(out, q, parts_of(value)),
        _ => Ok(()),
    }
}
