ghost use Rattle.std.specs.Prelude.{◌≡◌, true};
ghost use Rattle.residues.specs.IndexKind.{index, index_kind, index_admits, index_alike, index_laws};

use super::Index;
use super::reciprocals::reciprocal_of;
use exact::fault::NumberFault;
use exact::number::Number;

impl From<i32> for Index {
    ghost from_gives = { λ z v. v ≡ index z };

    fn from(z: i32) -> Index {
        Index {
            teeth: z.rem_euclid(127) as u8,
        }
    }
}

impl Number for Index {
    ghost kind = { index_kind };

    ghost admits = { index_admits };

    ghost alike = { index_alike };

    const COMPLETE: bool = true;

    ghost COMPLETE = { true };

    ghost laws = { index_laws };

    fn whole(a: i32) -> Result<Index, NumberFault> {
        Ok(Index::from(a))
    }

    fn less_times(self, b: Index, c: Index) -> Result<Index, NumberFault> {
        let product = i32::from(b.teeth) * i32::from(c.teeth);
        Ok(Index::from(i32::from(self.teeth) - product))
    }

    fn quotient(self, b: Index) -> Result<Index, NumberFault> {
        if b.teeth == 0 {
            return Err(NumberFault::ByZero);
        }
        Ok(Index::from(i32::from(self.teeth) * i32::from(reciprocal_of(b))))
    }

    fn is_zero(self) -> bool {
        self.teeth == 0
    }

    fn same(self, b: Index) -> bool {
        self == b
    }
}
