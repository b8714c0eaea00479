ghost use Rattle.std.specs.Prelude.{◌≡◌, ℕ, ◌+◌, ◌<◌, ◌≤◌, length, drop};
ghost use Rattle.ledger.specs.Listed.{listed};
ghost use Rattle.elimination.specs.Held.{needed, line_place, line_at, size_in, entries_in, held_in, OtherLines};
ghost use Rattle.elimination.specs.Again.{taken_for};
ghost use Rattle.elimination.specs.Stating.{held_after, entered, HasPlaceFor};
ghost use Rattle.elimination.specs.Steps.{steps};

use crate::held::Held;
use crate::stating::fitting;
use crate::working::work;
use crate::working_row::open_row_again;
use exact::number::Number;
use ledger::ledger::Ledger;

// Writes the numbers of the line at a place over those at the place after the held lines, which is not after it.
fn move_line<K: Number>(memory: &mut [K], held: Held<'_>, place: usize)
    requires order { length held.entries.now ≤ place }
    requires place { place < held.n }
    requires room { needed held.n ≤ length memory.old }
    ensures line { line_at held.entry.n memory.new (length held.entry.entries.now) ≡ line_at held.entry.n memory.old place }
    ensures others { OtherLines held.entry.n (length held.entry.entries.now) memory.old memory.new }
    ensures later { drop (line_place held.entry.n (place + 1)) memory.new ≡ drop (line_place held.entry.n (place + 1)) memory.old }
{
    if held.entries.len() < place {
        memory.copy_within(held.line(place), held.line(held.entries.len()).start);
    }
}

// States the line that is written at a place again, over the held lines of a ledger, which are not more than the places before it. Answers
// the subject of a line that is taken; the caller enters it.
pub(crate) fn restate_line<K: Number>(
    ledger: &Ledger,
    memory: &mut [K],
    place: usize,
) -> Option<usize>
    requires held { length (entries_in (listed ledger.now) (length memory.old)) ≤ place }
    requires place { place < size_in (listed ledger.now) (length memory.old) }
    ensures answer { (label : ℕ) → result ≡ taken_for (steps K.kind (size_in (listed ledger.now) (length memory.old)) (held_in (listed ledger.now) memory.old) label (line_at (size_in (listed ledger.now) (length memory.old)) memory.old place)) }
    ensures proper { HasPlaceFor (listed ledger.now) result }
    ensures held { (label : ℕ) → held_in (entered (steps K.kind (size_in (listed ledger.now) (length memory.old)) (held_in (listed ledger.now) memory.old) label (line_at (size_in (listed ledger.now) (length memory.old)) memory.old place)) label (listed ledger.now)) memory.new ≡ held_after (steps K.kind (size_in (listed ledger.now) (length memory.old)) (held_in (listed ledger.now) memory.old) label (line_at (size_in (listed ledger.now) (length memory.old)) memory.old place)) (held_in (listed ledger.now) memory.old) }
    ensures later { drop (line_place (size_in (listed ledger.now) (length memory.old)) (place + 1)) memory.new ≡ drop (line_place (size_in (listed ledger.now) (length memory.old)) (place + 1)) memory.old }
{
    let held = fitting(ledger, memory.len());
    open_row_again(memory, held, place);
    let subject = work(ledger, memory).ok().flatten()?;
    move_line(memory, held, place);
    Some(subject)
}
