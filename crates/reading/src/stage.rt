use crate::figure::Figure;
use crate::term::Term;

// How far a line has come.
#[derive(Clone, Copy)]
pub enum Stage {
    // Nothing but spaces.
    Opening,
    // The sign of a term.
    Signed(bool),
    // A coefficient, with its term's sign.
    Coefficient(bool, Figure),
    // The q of a term, which has no number yet.
    Named(Term),
    // The number after that q.
    Number(Term, Figure),
    // The equals sign.
    Right,
    // The minus before the constant.
    Negated,
    // The constant, with its sign.
    Constant(bool, Figure),
}

// Where a mark leads, and the term that it ends.
#[derive(Clone, Copy)]
pub struct Move {
    pub ended: Option<Term>,
    pub next: Stage,
}

impl From<Stage> for Move {
    ghost use Rattle.std.specs.Prelude.{◌≡◌, None};

    ghost from_gives = { λ s m. m ≡ record { ended = None; next = s } };

    fn from(next: Stage) -> Move {
        Move { ended: None, next }
    }
}
