ghost use Rattle.std.specs.Prelude.{◌≡◌, ℕ, ◌+◌, ◌<◌, ◌≤◌, map, length, drop, pos, slice_index_or, unsigned_abs};
ghost use Rattle.exact.specs.Answers.{value_of};
ghost use Rattle.rows.specs.Row.{done};
ghost use Rattle.elimination.specs.Held.{needed, lines_place, line_at, lines_of, row_of, OtherLines};
ghost use Rattle.elimination.specs.Steps.{holding as held_rows};
ghost use Rattle.elimination.specs.Working.{HoldsRows};

use crate::backstep::{go_back, would_go_back};
use crate::fault::{Step, StepFault};
use crate::held::Held;
use crate::steps::at_place;
use exact::number::Number;
use rows::row::{divide, load};

// Writes the numbers of a line at the place after the held ones. They are small as `pass` found them: a type for such a line would serve
// this call and `open_row` alone.
pub(crate) fn write_line<K: Number>(memory: &mut [K], held: Held<'_>, line: &[i32])
    requires place { length held.entries.now < held.n }
    requires room { needed held.n ≤ length memory.old }
    requires long { length line.now ≡ held.n + 1 }
    requires small { (u : ℕ) → u < length line.now → unsigned_abs (slice_index_or line.now u (pos 0)) ≤ 1000000 }
    ensures line { line_at held.entry.n memory.new (length held.entry.entries.now) ≡ map (value_of K.kind) line.now }
    ensures others { OtherLines held.entry.n (length held.entry.entries.now) memory.old memory.new }
    ensures rest { drop (needed held.entry.n) memory.new ≡ drop (needed held.entry.n) memory.old }
{
    load(&mut memory[held.line(held.entries.len())], line).unwrap();
}

// Divides the working row and clears its subject out of the other rows: all of it, or nothing but the working row.
pub(crate) fn hold_rows<K: Number>(
    memory: &mut [K],
    held: Held<'_>,
    q: usize,
) -> Result<(), StepFault>
    requires place { length held.entries.now < held.n }
    requires room { needed held.n ≤ length memory.old }
    requires column { q < held.n }
    ensures answer { result ≡ done (held_rows K.kind q (lines_of held.entry memory.old) (row_of held.entry memory.old)) }
    ensures rows { HoldsRows (held_rows K.kind q (lines_of held.entry memory.old) (row_of held.entry memory.old)) held.entry memory.old memory.new }
    ensures lines { drop (lines_place held.entry.n) memory.new ≡ drop (lines_place held.entry.n) memory.old }
{
    let w = &mut memory[held.working_row()];
    let f = w[q];
    at_place(Step::Divide, 0, divide(w, f))?;
    would_go_back(memory, held, q)?;
    go_back(memory, held, q).unwrap();
    Ok(())
}
