ghost use Rattle.std.specs.Prelude.{◌≡◌, false};
ghost use Rattle.exact.specs.Fraction.{Equal};
ghost use Rattle.algebra.specs.Prime.{Admits, Nought};
ghost use Rattle.fractions.specs.Laws.{ratio_kind, ratio_laws};

use super::Ratio;
use exact::fault::NumberFault;
use exact::number::Number;

impl Number for Ratio {
    ghost kind = { ratio_kind };

    ghost admits = { Admits Nought };

    ghost alike = { Equal };

    const COMPLETE: bool = false;

    ghost COMPLETE = { false };

    ghost laws = { ratio_laws };

    fn whole(a: i32) -> Result<Ratio, NumberFault> {
        Ratio::new(i64::from(a), 1)
    }

    fn less_times(self, b: Ratio, c: Ratio) -> Result<Ratio, NumberFault> {
        let below = i64::from(b.den) * i64::from(c.den);
        let first = i64::from(self.num) * below;
        let second = i64::from(self.den) * (i64::from(b.num) * i64::from(c.num));
        let top = first - second;
        Ratio::new(top, i64::from(self.den) * below)
    }

    fn quotient(self, b: Ratio) -> Result<Ratio, NumberFault> {
        let top = i64::from(self.num) * i64::from(b.den);
        Ratio::new(top, i64::from(self.den) * i64::from(b.num))
    }

    fn is_zero(self) -> bool {
        self.num == 0
    }

    fn same(self, b: Ratio) -> bool {
        self == b
    }
}
