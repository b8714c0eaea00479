use exact::number::Number;
use ledger::ledger::Ledger;
use ledger::marks::Marks;
use ledger::waits::Waits;

mod calls;
mod listing;
mod trials;
mod waiting;

// A sheet in memory that is lent to it. It has no invariant, ghost field or model of its own, and the reference stands bare in it, so that
// the lender knows what its memory holds when the sheet has ended. A sheet whose memory does not do for its set points has none.
#[derive(Drop)]
pub struct Sheet<'a, K: Number> {
    number: u16,
    ledger: Ledger,
    marks: Marks,
    waits: Waits,
    memory: &'a mut [K],
}
