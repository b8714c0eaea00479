ghost use Rattle.std.specs.Prelude.{◌≡◌, ◌<◌, ◌≤◌, MatchOption};

use crate::mark::Digit;
use std::marker::Model;
use std::num::NonZeroUsize;

// An integer under way.
#[derive(Clone, Copy)]
pub struct Figure {
    pub value: u32,
    // How many more digits may follow: none after a space.
    left: u32,
    // The column of the first digit.
    pub start: usize,
}

impl Model for Figure {
    ghost use Rattle.std.specs.Prelude.{◌≡◌, ℕ, ◌-◌, ◌≤◌};
    ghost use Rattle.std.proofs.Common.{ap, arith};
    ghost use Rattle.reading.specs.Parts.{FigureParts};

    ghost Value = { FigureParts };

    ghost use Rattle.reading.specs.Sound.{Begun};
    ghost use Rattle.reading.specs.Steps.{figure_of};

    ghost view = { λ f. figure_of f.value (7 - f.left) f.start };

    ghost invariant = { λ f. Begun (figure_of f.value (7 - f.left) f.start) × (f.left ≤ 7) };

    ghost inverse = { λ p. record { value = p.value; left = 7 - p.count; start = p.start } };

    ghost inverse_ok = { λ f h. let e : 7 - (7 - f.left) ≡ f.left = Prim.omega arith in ap (λ (l : ℕ). record { value = f.value; left = l; start = f.start }) e };
}

impl Figure {
    ghost use Rattle.std.specs.Int.NonZero.{non_zero_usize_get};
    ghost use Rattle.reading.specs.Steps.{figure_of, closed, longer};

    pub(crate) fn first(digit: Digit, column: NonZeroUsize) -> Self
        ensures { result ≡ figure_of digit 1 (non_zero_usize_get column) }
    {
        Figure {
            value: u32::from(digit.value),
            left: 6,
            start: column.get(),
        }
    }

    // The integer with a digit more, where one may follow.
    pub(crate) fn longer(self, digit: Digit) -> Option<Self>
        ensures { MatchOption result (7 ≤ self.count) (λ f. (self.count < 7) × (f ≡ longer self digit)) }
    {
        let left = self.left.checked_sub(1)?;
        Some(Figure {
            value: 10 * self.value + u32::from(digit.value),
            left,
            ..self
        })
    }

    // No digit may follow.
    pub(crate) fn closed(self) -> Self
        ensures { result ≡ closed self }
    {
        Figure { left: 0, ..self }
    }
}
