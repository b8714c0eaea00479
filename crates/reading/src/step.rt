ghost use Rattle.std.specs.Prelude.{◌≡◌};
ghost use Rattle.std.specs.Int.NonZero.{non_zero_usize_get};
ghost use Rattle.reading.specs.Steps.{on_space, on_digit, on_q, on_minus, ended, move};

use crate::figure::Figure;
use crate::mark::{Digit, Mark};
use crate::stage::{Move, Stage};
use crate::term::Term;
use std::num::NonZeroUsize;

impl Stage {
    // What a mark in this column does. No line goes on with it where the answer is None.
    pub(crate) fn moved(self, column: NonZeroUsize, mark: Mark) -> Option<Move>
        ensures { result ≡ move self (non_zero_usize_get column) mark }
    {
        // An arm for each mark, since the marks are data.
        match mark {
            Mark::Space => self.spaced(),
            Mark::Digit(digit) => self.counted(column, digit),
            Mark::SetPoint => self.named(column.get()),
            Mark::Plus => self.joined(Stage::Signed(false)),
            Mark::Minus => self.subtracted(),
            Mark::Equals => self.joined(Stage::Right),
            Mark::Other => None,
        }
    }

    // A space ends an integer, and may not follow a q.
    fn spaced(self) -> Option<Move>
        ensures { result ≡ on_space self }
    {
        Some(Move::from(match self {
            Stage::Coefficient(negative, figure) => Stage::Coefficient(negative, figure.closed()),
            Stage::Named(_) => return None,
            Stage::Number(term, figure) => Stage::Number(term, figure.closed()),
            Stage::Constant(negative, figure) => Stage::Constant(negative, figure.closed()),
            _ => self,
        }))
    }

    // A digit begins an integer or makes it longer, up to seven digits.
    fn counted(self, column: NonZeroUsize, digit: Digit) -> Option<Move>
        ensures { result ≡ on_digit self (non_zero_usize_get column) digit }
    {
        let first = Figure::first(digit, column);
        Some(Move::from(match self {
            Stage::Opening => Stage::Coefficient(false, first),
            Stage::Signed(negative) => Stage::Coefficient(negative, first),
            Stage::Coefficient(negative, figure) => {
                Stage::Coefficient(negative, figure.longer(digit)?)
            }
            Stage::Named(term) => Stage::Number(term, first),
            Stage::Number(term, figure) => Stage::Number(term, figure.longer(digit)?),
            Stage::Right => Stage::Constant(false, first),
            Stage::Negated => Stage::Constant(true, first),
            Stage::Constant(negative, figure) => Stage::Constant(negative, figure.longer(digit)?),
        }))
    }

    // A q stands before a term's number; a term without a coefficient has 1.
    fn named(self, place: usize) -> Option<Move>
        ensures { result ≡ on_q self place }
    {
        let (negative, coefficient, start) = match self {
            Stage::Opening => (false, 1, None),
            Stage::Signed(negative) => (negative, 1, None),
            Stage::Coefficient(negative, figure) => (negative, figure.value, Some(figure.start)),
            _ => return None,
        };
        // The number is 0 until `joined` writes it: a type of its own for a term without one would say no more.
        Some(Move::from(Stage::Named(Term {
            negative,
            coefficient,
            start,
            place,
            number: 0,
        })))
    }

    // A minus is the sign of the first term or of the constant, or stands between terms.
    fn subtracted(self) -> Option<Move>
        ensures { result ≡ on_minus self }
    {
        match self {
            Stage::Opening => Some(Move::from(Stage::Signed(true))),
            Stage::Right => Some(Move::from(Stage::Negated)),
            _ => self.joined(Stage::Signed(true)),
        }
    }

    // A mark that ends a term, and the stage after it.
    fn joined(self, next: Stage) -> Option<Move>
        ensures { result ≡ ended self next }
    {
        match self {
            Stage::Number(term, figure) => Some(Move {
                ended: Some(Term {
                    number: figure.value,
                    ..term
                }),
                next,
            }),
            _ => None,
        }
    }
}
