ghost use Rattle.std.specs.Prelude.{◌≡◌, ℕ, ◌≤◌, length, drop};
ghost use Rattle.rows.specs.Row.{done, Leaves};
ghost use Rattle.elimination.specs.Held.{row_place, needed, lines_of, row_of};
ghost use Rattle.elimination.specs.Steps.{back};

use crate::fault::{Step, StepFault};
use crate::held::Held;
use crate::steps::at_place;
use exact::number::Number;
use rows::row::{clear_column, would_clear_column};

// What `go_back` would answer. It reads only: the write must not begin before all of it is known to go.
pub(crate) fn would_go_back<K: Number>(
    memory: &[K],
    held: Held<'_>,
    q: usize,
) -> Result<(), StepFault>
    requires room { needed held.n ≤ length memory.now }
    ensures { result ≡ done (back K.kind q 1 (row_of held.entry memory.now) (lines_of held.entry memory.now)) }
{
    let w = &memory[held.working_row()];
    let rows = memory.chunks_exact(held.width());
    for (j, row) in rows.take(held.entries.len()).enumerate() {
        at_place(Step::Back, j + 1, would_clear_column(row, q, w))?;
    }
    Ok(())
}

// Clears the column q out of the rows of the held lines, by the working row.
pub(crate) fn go_back<K: Number>(
    memory: &mut [K],
    held: Held<'_>,
    q: usize,
) -> Result<(), StepFault>
    requires room { needed held.n ≤ length memory.old }
    ensures answer { result ≡ done (back K.kind q 1 (row_of held.entry memory.old) (lines_of held.entry memory.old)) }
    ensures made { Leaves (back K.kind q 1 (row_of held.entry memory.old) (lines_of held.entry memory.old)) (lines_of held.entry memory.new) }
    ensures rest { drop (row_place held.entry.n (length held.entry.entries.now)) memory.new ≡ drop (row_place held.entry.n (length held.entry.entries.now)) memory.old }
{
    let (rows, rest) = memory.split_at_mut(held.working_row().start);
    let w = &rest[..held.width()];
    let h = held.entries.len();
    // By place: what is written through `chunks_exact_mut` is not known afterwards.
    for j in 0..h {
        at_place(
            Step::Back,
            j + 1,
            clear_column(&mut rows[held.row(j)], q, w),
        )?;
    }
    Ok(())
}
