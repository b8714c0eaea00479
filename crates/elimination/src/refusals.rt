ghost use Rattle.std.specs.Prelude.{◌≡◌, ℕ, ◌+◌, ◌<◌, ◌≤◌, length, pos, None, Ok, slice_index_or, unsigned_abs};
ghost use Rattle.elimination.specs.Refusals.{limit, over_limit, refusal, Passes};

use crate::fault::SheetFault;
use crate::held::Held;
use ledger::limits::LAST_LABEL;

const LARGEST_COEFFICIENT: u32 = 10_000;

const LARGEST_CONSTANT: u32 = 1_000_000;

fn limit_of(n: usize, column: usize) -> u32
    ensures { result ≡ limit n column }
{
    if column < n {
        LARGEST_COEFFICIENT
    } else {
        LARGEST_CONSTANT
    }
}

// The position, from 1, of the first number of a line that is outside its limits.
fn first_outside(n: usize, line: &[i32]) -> Option<usize>
    ensures answer { result ≡ over_limit n 0 line.now }
    ensures small { result ≡ None → (u : ℕ) → u < length line.now → unsigned_abs (slice_index_or line.now u (pos 0)) ≤ 1000000 }
{
    line.iter()
        .enumerate()
        .position(|(i, a)| a.unsigned_abs() > limit_of(n, i))
        .map(|i| i + 1)
}

// Why a line is not looked at, with room for so many records.
pub(crate) fn pass(held: Held<'_>, line: &[i32], label: u32, room: usize) -> Result<(), SheetFault>
    ensures answer { result ≡ refusal held.entry.n (length held.entry.entries.now) line.now label room }
    ensures passes { result ≡ Ok tt → Passes held.entry.n (length held.entry.entries.now) line.now room }
{
    if line.len() != held.n + 1 {
        return Err(SheetFault::Length);
    }
    if room <= held.entries.len() {
        return Err(SheetFault::Room);
    }
    if !(1..=LAST_LABEL).contains(&label) {
        return Err(SheetFault::Label);
    }
    match first_outside(held.n, line) {
        Some(position) => Err(SheetFault::Limit { position }),
        None => Ok(()),
    }
}
