ghost use Rattle.std.specs.Prelude.{◌≡◌, ℕ, ◌<◌, ◌≤◌, List, ◌++◌, length};
ghost use Rattle.elimination.specs.Held.{wide, lines_of};
ghost use Rattle.elimination.specs.Steps.{evidence};
ghost use Rattle.elimination.specs.Stating.{over_written};

use crate::held::Held;
use crate::record::Record;
use exact::number::Number;
use exact::value::value_of;

// Writes the lines that a clash rests on, the refused one last, and answers how many. The count stands beside the records, as they are
// lent: no heap is used.
pub(crate) fn tell_clash<K: Number>(
    w: &[K],
    held: Held<'_>,
    label: u32,
    records: &mut [Record<K>],
) -> usize
    requires width { length w.now ≡ wide held.n }
    requires records { length held.entries.now < length records.old }
    ensures count { (m : List K) → result ≡ length (evidence K.kind held.entry.n (lines_of held.entry m) label w.now) }
    ensures records { (m : List K) → records.new ≡ over_written (evidence K.kind held.entry.n (lines_of held.entry m) label w.now) records.old }
{
    let mut count = 0;
    let multipliers = &w[held.n + 1..];
    for (j, (entry, multiplier)) in held.entries.iter().zip(multipliers).enumerate() {
        if !multiplier.is_zero() {
            records[count] = Record {
                place: j + 1,
                label: entry.label,
                multiplier: *multiplier,
            };
            count += 1;
        }
    }
    records[count] = Record {
        place: held.entries.len() + 1,
        label,
        multiplier: value_of(1),
    };
    count + 1
}
