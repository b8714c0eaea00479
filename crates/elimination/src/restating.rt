ghost use Rattle.std.specs.Prelude.{◌≡◌, [], length, take, drop};
ghost use Rattle.ledger.specs.Listed.{listed};
ghost use Rattle.elimination.specs.Held.{used, size_in, held_in};
ghost use Rattle.elimination.specs.Again.{restated};

use crate::again::restate_line;
use crate::stating::fitting;
use exact::number::Number;
use ledger::ledger::Ledger;

// States the first `count` held lines again, from none on, each with its label. One that is not taken is passed over.
pub fn restate<K: Number>(ledger: &mut Ledger, memory: &mut [K], count: usize)
    ensures size { (listed ledger.new).n ≡ (listed ledger.old).n }
    ensures held { held_in (listed ledger.new) memory.new ≡ restated K.kind (size_in (listed ledger.old) (length memory.old)) [] (take count (held_in (listed ledger.old) memory.old)) }
    ensures rest { drop (used (size_in (listed ledger.old) (length memory.old))) memory.new ≡ drop (used (size_in (listed ledger.old) (length memory.old))) memory.old }
{
    let old = *ledger;
    let entries = fitting(&old, memory.len()).entries;
    let again = &entries[..count.min(entries.len())];
    *ledger = Ledger::new(old.set_points());
    for (place, entry) in again.iter().enumerate() {
        if let Some(subject) = restate_line(ledger, memory, place) {
            ledger.hold(entry.label, subject).unwrap();
        }
    }
}
