ghost use Rattle.std.specs.Prelude.{◌≡◌, ℕ, ◌+◌, ◌<◌, ◌≤◌, true, List, [], map, length, drop, pos, None, Err, ◌≢◌, slice_index_or, unsigned_abs};
ghost use Rattle.exact.specs.Answers.{value_of};
ghost use Rattle.ledger.specs.Listed.{listed};
ghost use Rattle.elimination.specs.Held.{wide, needed, used, held_lines, lines_of, size_in, entries_in, held_in};
ghost use Rattle.elimination.specs.Refusals.{Passes};
ghost use Rattle.elimination.specs.Steps.{judged, steps};
ghost use Rattle.elimination.specs.Stating.{stating, course, held_after, records_after, entered, HasPlace, Answers, entries_after};
ghost use Rattle.elimination.specs.declared.fault.StepFault.{StepFault as StepFaultOf};
ghost use Rattle.elimination.specs.declared.fault.SheetFault.TheVariants.{Numbers};

use crate::clash::tell_clash;
use crate::fault::SheetFault;
use crate::held::Held;
use crate::holding::write_line;
use crate::record::Record;
use crate::refusals::pass;
use crate::working::solve;
use crate::working_row::open_row;
use exact::number::Number;
use exact::value::value_of;
use ledger::ledger::Ledger;

// What a line comes to whose row has no set point left.
fn spent<K: Number>(
    w: &[K],
    held: Held<'_>,
    label: u32,
    records: &mut [Record<K>],
) -> Result<Option<usize>, SheetFault>
    requires width { length w.now ≡ wide held.n }
    requires records { length held.entries.now < length records.old }
    ensures answer { (m line : List K) → result ≡ course (judged K.kind held.entry.n (lines_of held.entry m) label line w.now None) }
    ensures proper { Answers held.entry.n (length held.entry.entries.now) result }
    ensures records { (m line : List K) → records.new ≡ records_after (judged K.kind held.entry.n (lines_of held.entry m) label line w.now None) records.old }
{
    if w[held.n].is_zero() {
        return Ok(None);
    }
    let count = tell_clash(w, held, label, records);
    Err(SheetFault::Clash { count })
}

// All the steps over a line, for a sheet with set points.
fn advance<K: Number>(
    memory: &mut [K],
    held: Held<'_>,
    line: &[i32],
    label: u32,
    records: &mut [Record<K>],
) -> Result<Option<usize>, SheetFault>
    requires room { needed held.n ≤ length memory.old }
    requires passes { Passes held.n (length held.entries.now) line.now (length records.old) }
    ensures answer { result ≡ course (steps K.kind held.entry.n (lines_of held.entry memory.old) label (map (value_of K.kind) line.now)) }
    ensures proper { Answers held.entry.n (length held.entry.entries.now) result }
    ensures held { held_lines held.entry.n memory.new 0 (entries_after (steps K.kind held.entry.n (lines_of held.entry memory.old) label (map (value_of K.kind) line.now)) label held.entry.entries.now) ≡ held_after (steps K.kind held.entry.n (lines_of held.entry memory.old) label (map (value_of K.kind) line.now)) (lines_of held.entry memory.old) }
    ensures records { records.new ≡ records_after (steps K.kind held.entry.n (lines_of held.entry memory.old) label (map (value_of K.kind) line.now)) records.old }
    ensures rest { drop (needed held.entry.n) memory.new ≡ drop (needed held.entry.n) memory.old }
{
    open_row(memory, held, line);
    match solve(memory, held)? {
        Some(subject) => {
            write_line(memory, held, line);
            Ok(Some(subject))
        }
        None => spent(&memory[held.working_row()], held, label, records),
    }
}

// A line on a sheet with no set point, which uses no memory: it says 0 = c.
fn bare<K: Number>(
    line: &[i32],
    label: u32,
    records: &mut [Record<K>],
) -> Result<Option<usize>, SheetFault>
    requires { Passes 0 0 line.now (length records.old) }
    ensures answer { result ≡ course (steps K.kind 0 [] label (map (value_of K.kind) line.now)) }
    ensures proper { Answers 0 0 result }
    ensures records { records.new ≡ records_after (steps K.kind 0 [] label (map (value_of K.kind) line.now)) records.old }
{
    let constant: K = value_of(line[0]);
    if constant.is_zero() {
        return Ok(None);
    }
    records[0] = Record {
        place: 1,
        label,
        multiplier: value_of(1),
    };
    Err(SheetFault::Clash { count: 1 })
}

// The set points and entries that a ledger shows over so much memory: none where the memory does not do for them.
#[tactic(auto, using(crate::proofs::Shown::sound_size))]
pub fn fitting(ledger: &Ledger, have: usize) -> Held<'_>
    ensures size { result.n ≡ size_in (listed ledger.now) have }
    ensures entries { result.entries.now ≡ entries_in (listed ledger.now) have }
    ensures room { used result.n ≤ have }
{
    let n = ledger.set_points();
    let entries = ledger.entries();
    // The count that sheet's `measure` gives: a function for both would be public, and had to say what an n past 48 gives.
    if (n + 1) * (3 * n + 1) <= have {
        return Held { n, entries };
    }
    Held { n: 0, entries: &[] }
}

// States a line over the held lines of a ledger and its memory. The ledger is left to the caller, who enters a line that is taken. Memory,
// line and records are lent by callers of their own, and so are no one value here.
pub fn state_line<K: Number>(
    ledger: &Ledger,
    memory: &mut [K],
    line: &[i32],
    label: u32,
    records: &mut [Record<K>],
) -> Result<Option<usize>, SheetFault>
    ensures answer { result ≡ course (stating K.kind (size_in (listed ledger.now) (length memory.old)) (held_in (listed ledger.now) memory.old) line.now label (length records.old)) }
    ensures proper { HasPlace (listed ledger.now) result }
    ensures held { held_in (entered (stating K.kind (size_in (listed ledger.now) (length memory.old)) (held_in (listed ledger.now) memory.old) line.now label (length records.old)) label (listed ledger.now)) memory.new ≡ held_after (stating K.kind (size_in (listed ledger.now) (length memory.old)) (held_in (listed ledger.now) memory.old) line.now label (length records.old)) (held_in (listed ledger.now) memory.old) }
    ensures records { records.new ≡ records_after (stating K.kind (size_in (listed ledger.now) (length memory.old)) (held_in (listed ledger.now) memory.old) line.now label (length records.old)) records.old }
    ensures rest { drop (used (size_in (listed ledger.now) (length memory.old))) memory.new ≡ drop (used (size_in (listed ledger.now) (length memory.old))) memory.old }
    ensures always { K.COMPLETE ≡ true → (f : StepFaultOf) → result ≢ Err (Numbers f) }
{
    let held = fitting(ledger, memory.len());
    pass(held, line, label, records.len())?;
    if held.n == 0 {
        return bare(line, label, records);
    }
    advance(memory, held, line, label, records)
}
