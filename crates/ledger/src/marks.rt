#![tactic(auto, using(std::proofs::lemmas::Bool::Decides::nat_tests), unfolding(crate::specs::Marked::marked))]

use crate::limits::MOST_TRIALS;
use bounded::bounded::Bounded;

mod asking;
mod stacking;

// How many lines were held when each open trial was opened. At most eight trials are open.
#[derive(Clone, Copy)]
pub struct Marks {
    counts: Bounded<usize, MOST_TRIALS>,
}
