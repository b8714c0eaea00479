ghost use Rattle.std.specs.Prelude.{◌≡◌, true};
ghost use Rattle.residues.specs.ParityKind.{parity, turned_over, parity_kind, parity_admits, parity_alike, parity_laws};

use super::Parity;
use exact::fault::NumberFault;
use exact::number::Number;
use std::ops::Not;

impl From<i32> for Parity {
    ghost from_gives = { λ z v. v ≡ parity z };

    fn from(z: i32) -> Parity {
        if z.rem_euclid(2) == 0 {
            Parity::Shut
        } else {
            Parity::Open
        }
    }
}

// 1 more, and 1 less.
impl Not for Parity {
    type Output = Parity;

    ghost not_gives = { λ v w. w ≡ turned_over v };

    fn not(self) -> Parity {
        match self {
            Parity::Shut => Parity::Open,
            Parity::Open => Parity::Shut,
        }
    }
}

impl Number for Parity {
    ghost kind = { parity_kind };

    ghost admits = { parity_admits };

    ghost alike = { parity_alike };

    const COMPLETE: bool = true;

    ghost COMPLETE = { true };

    ghost laws = { parity_laws };

    fn whole(a: i32) -> Result<Parity, NumberFault> {
        Ok(Parity::from(a))
    }

    fn less_times(self, b: Parity, c: Parity) -> Result<Parity, NumberFault> {
        match (b, c) {
            (Parity::Shut, _) => Ok(self),
            (_, Parity::Shut) => Ok(self),
            (Parity::Open, Parity::Open) => Ok(!self),
        }
    }

    fn quotient(self, b: Parity) -> Result<Parity, NumberFault> {
        match b {
            Parity::Shut => Err(NumberFault::ByZero),
            Parity::Open => Ok(self),
        }
    }

    fn is_zero(self) -> bool {
        self == Parity::Shut
    }

    fn same(self, b: Parity) -> bool {
        self == b
    }
}
