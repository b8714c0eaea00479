#![tactic(auto, using(std::proofs::lemmas::Bool::Decides::nat_tests), unfolding(crate::specs::Waiting::waiting))]

ghost use Rattle.bounded.specs.Items.{items};
ghost use Rattle.ledger.specs.Apart.{Points, Apart};

use crate::limits::MOST_SET_POINTS;
use crate::wait::Wait;
use bounded::bounded::Bounded;

mod asking;
mod placing;

// The waits in the order they were placed, the oldest first. No set point is waited for twice, so 48 places do.
#[derive(Clone, Copy)]
pub struct Waits {
    waits: Bounded<Wait, MOST_SET_POINTS>,
    ghost points: { Points (items waits) },
    ghost apart: { Apart (items waits) },
}
