ghost use Rattle.std.specs.Prelude.{◌≡◌, ℕ, ◌≤◌, length};
ghost use Rattle.rows.specs.Row.{done, Leaves};
ghost use Rattle.elimination.specs.Held.{needed, lines_of, row_of, OnlyRow};
ghost use Rattle.elimination.specs.Steps.{located, forward};

use crate::fault::{Step, StepFault};
use crate::held::Held;
use exact::number::Number;
use rows::fault::RowFault;
use rows::row::clear_column;

// The working row lies after the rows of the held lines, at the place that its line would have.

// The answer of a row, as that of a step at a place.
pub(crate) fn at_place(
    step: Step,
    place: usize,
    answer: Result<(), RowFault>,
) -> Result<(), StepFault>
    ensures { result ≡ located step place answer }
{
    answer.map_err(|row| StepFault { step, place, row })
}

// Clears the subjects of the held lines out of the working row.
pub(crate) fn go_forward<K: Number>(memory: &mut [K], held: Held<'_>) -> Result<(), StepFault>
    requires room { needed held.n ≤ length memory.old }
    ensures answer { result ≡ done (forward K.kind 1 (lines_of held.entry memory.old) (row_of held.entry memory.old)) }
    ensures made { Leaves (forward K.kind 1 (lines_of held.entry memory.old) (row_of held.entry memory.old)) (row_of held.entry memory.new) }
    ensures only { OnlyRow held.entry.n (length held.entry.entries.now) memory.old memory.new }
{
    let (rows, rest) = memory.split_at_mut(held.working_row().start);
    let w = &mut rest[..held.width()];
    for (j, entry) in held.entries.iter().enumerate() {
        at_place(
            Step::Forward,
            j + 1,
            clear_column(w, usize::from(entry.subject), &rows[held.row(j)]),
        )?;
    }
    Ok(())
}
