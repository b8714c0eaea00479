#![tactic(auto, using(std::proofs::lemmas::Bool::Decides::nat_tests), unfolding(crate::specs::Listed::listed))]

ghost use Rattle.std.specs.Prelude.{◌≤◌, length};
ghost use Rattle.bounded.specs.Items.{items};
ghost use Rattle.ledger.specs.Entries.{Subjects};

use crate::entry::Entry;
use crate::limits::MOST_SET_POINTS;
use bounded::bounded::Bounded;

mod entering;
mod keeping;

// n set points, and the entries of the held lines in the order they were taken.
#[derive(Clone, Copy)]
pub struct Ledger {
    n: usize,
    entries: Bounded<Entry, MOST_SET_POINTS>,
    ghost few: { n ≤ 48 },
    ghost held: { length (items entries) ≤ n },
    ghost subjects: { Subjects n (items entries) },
}
