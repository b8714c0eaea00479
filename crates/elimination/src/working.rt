ghost use Rattle.std.specs.Prelude.{◌≡◌, ◌≤◌, true, length, drop, Err, ◌≢◌};
ghost use Rattle.ledger.specs.Listed.{listed};
ghost use Rattle.elimination.specs.Held.{wide, needed, lines_place, lines_of, row_of, size_in};
ghost use Rattle.elimination.specs.Steps.{subject};
ghost use Rattle.elimination.specs.Outcome.{found, work as worked};
ghost use Rattle.elimination.specs.Stating.{Answers, Found, HasPlace};
ghost use Rattle.elimination.specs.Working.{Left, working, Remains};
ghost use Rattle.elimination.specs.declared.fault.StepFault.{StepFault as StepFaultOf};

use crate::fault::StepFault;
use crate::held::Held;
use crate::holding::hold_rows;
use crate::stating::fitting;
use crate::steps::go_forward;
use exact::number::Number;
use ledger::ledger::Ledger;
use rows::row::highest_nonzero;

// The highest set point that the working row still has. A sheet of n held lines has no place for another. The row is a lent part of the
// memory, so that its width is a clause here and where such a row is handed on.
fn subject_of<K: Number>(w: &[K], held: Held<'_>) -> Option<usize>
    requires width { length w.now ≡ wide held.n }
    ensures answer { result ≡ subject K.kind held.entry.n (length held.entry.entries.now) w.now }
    ensures found { Found held.entry.n (length held.entry.entries.now) result }
{
    if held.entries.len() < held.n {
        return highest_nonzero(&w[..held.n]);
    }
    None
}

// The steps over the working row of a sheet with set points.
pub(crate) fn solve<K: Number>(memory: &mut [K], held: Held<'_>) -> Result<Option<usize>, StepFault>
    requires room { needed held.n ≤ length memory.old }
    ensures answer { result ≡ found (worked K.kind held.entry.n (lines_of held.entry memory.old) (row_of held.entry memory.old)) }
    ensures proper { Answers held.entry.n (length held.entry.entries.now) result }
    ensures left { Left (worked K.kind held.entry.n (lines_of held.entry memory.old) (row_of held.entry memory.old)) held.entry memory.old memory.new }
    ensures lines { drop (lines_place held.entry.n) memory.new ≡ drop (lines_place held.entry.n) memory.old }
{
    go_forward(memory, held)?;
    match subject_of(&memory[held.working_row()], held) {
        Some(q) => {
            hold_rows(memory, held, q)?;
            Ok(Some(q))
        }
        None => Ok(None),
    }
}

// The steps over the working row, which lies after the rows of the held lines, at the place that its line would have: forward, and if a
// set point is left, divide and back. Answers that set point, the subject, from 0. The numbers of the lines stay, and so does the ledger:
// the caller enters a line that has a subject.
pub fn work<K: Number>(ledger: &Ledger, memory: &mut [K]) -> Result<Option<usize>, StepFault>
    ensures answer { result ≡ found (working K.kind (listed ledger.now) memory.old) }
    ensures proper { HasPlace (listed ledger.now) result }
    ensures left { Remains (working K.kind (listed ledger.now) memory.old) (listed ledger.now) memory.old memory.new }
    ensures lines { drop (lines_place (size_in (listed ledger.now) (length memory.old))) memory.new ≡ drop (lines_place (size_in (listed ledger.now) (length memory.old))) memory.old }
    ensures always { K.COMPLETE ≡ true → (f : StepFaultOf) → result ≢ Err f }
{
    let held = fitting(ledger, memory.len());
    if held.n == 0 {
        return Ok(None);
    }
    solve(memory, held)
}
