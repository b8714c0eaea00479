ghost use Rattle.std.specs.Prelude.{◌≡◌, ℕ, ◌+◌, ◌<◌, ◌≤◌, map, length, pos, slice_index_or, unsigned_abs};
ghost use Rattle.exact.specs.Answers.{value_of};
ghost use Rattle.elimination.specs.Held.{needed, row_of, line_at, OnlyRow};
ghost use Rattle.elimination.specs.Outcome.{multipliers};
ghost use Rattle.elimination.specs.Steps.{opening};

use crate::held::Held;
use exact::number::Number;
use exact::value::{value_of, zero};
use rows::row::{fill, load};

// The multipliers of the line that would be held at the place h: 1 there, and 0 for the others. For a place past them all are 0.
fn set_multipliers<K: Number>(w: &mut [K], h: usize)
    ensures { w.new ≡ multipliers K.kind (length w.old) h }
{
    fill(w, zero());
    if h < w.len() {
        w[h] = value_of(1);
    }
}

// Sets up the working row of a line of whole numbers.
pub(crate) fn open_row<K: Number>(memory: &mut [K], held: Held<'_>, line: &[i32])
    requires room { needed held.n ≤ length memory.old }
    requires long { length line.now ≡ held.n + 1 }
    requires small { (u : ℕ) → u < length line.now → unsigned_abs (slice_index_or line.now u (pos 0)) ≤ 1000000 }
    ensures row { row_of held.entry memory.new ≡ opening K.kind held.entry.n (length held.entry.entries.now) (map (value_of K.kind) line.now) }
    ensures only { OnlyRow held.entry.n (length held.entry.entries.now) memory.old memory.new }
{
    let w = &mut memory[held.working_row()];
    load(&mut w[..held.n + 1], line).unwrap();
    set_multipliers(&mut w[held.n + 1..], held.entries.len());
}

// Sets up the working row of the line that is written at a place.
pub(crate) fn open_row_again<K: Number>(memory: &mut [K], held: Held<'_>, place: usize)
    requires place { place < held.n }
    requires room { needed held.n ≤ length memory.old }
    ensures row { row_of held.entry memory.new ≡ opening K.kind held.entry.n (length held.entry.entries.now) (line_at held.entry.n memory.old place) }
    ensures only { OnlyRow held.entry.n (length held.entry.entries.now) memory.old memory.new }
{
    memory.copy_within(held.line(place), held.working_row().start);
    let w = &mut memory[held.working_row()];
    set_multipliers(&mut w[held.n + 1..], held.entries.len());
}
