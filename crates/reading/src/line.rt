ghost use Rattle.std.specs.Prelude.{◌≡◌, ◌<◌, ◌≤◌, All};
ghost use Rattle.std.proofs.Props.{props};
ghost use Rattle.bounded.specs.Items.{items};
ghost use Rattle.reading.specs.Terms.{Fair};

use crate::term::Term;
use bounded::bounded::Bounded;

// A line of the form. Its places for terms suffice for any text of 200 bytes.
#[derive(Clone, Copy)]
pub struct Line {
    pub terms: Bounded<Term, 200>,
    // The sign as read, beside a size, as in a term.
    pub negative: bool,
    pub constant: u32,
    // The column of the constant's first digit.
    pub start: usize,
    // No number has more than seven digits, and a coefficient without a digit is 1.
    ghost fair: { All Fair (items terms) } by { Prim.hlevel props },
    ghost small: { constant < 10000000 },
    ghost begins: { 1 ≤ start },
}

impl Line {
    // The terms from left to right.
    pub fn terms(&self) -> &[Term]
        ensures { result.now ≡ items self.now.terms }
    {
        self.terms.as_slice()
    }
}
