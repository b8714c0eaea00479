ghost use Rattle.std.specs.Prelude.{◌≡◌, ◌≤◌};
ghost use Rattle.fractions.specs.Lowest.{limit};
ghost use Rattle.fractions.specs.Value.{signed};
ghost use Rattle.fractions.specs.Making.{new_of};

use super::Ratio;
use crate::gcd::greatest_common_divisor;
use exact::fault::NumberFault;

const LARGEST: u64 = 1_000_000;

// Not one with its like in placing, over u32: one for both would be public, and had to say what a size past i32 gives.
fn with_sign(minus: bool, m: u64) -> i32
    requires { m ≤ limit }
    ensures { result ≡ signed minus m }
{
    if minus { -(m as i32) } else { m as i32 }
}

impl Ratio {
    // top/bottom in lowest terms.
    pub fn new(top: i64, bottom: i64) -> Result<Ratio, NumberFault>
        ensures { result ≡ new_of top bottom }
    {
        if bottom == 0 {
            return Err(NumberFault::ByZero);
        }
        let above = top.unsigned_abs();
        let below = bottom.unsigned_abs();
        let common = greatest_common_divisor(above, below);
        let m = above / common;
        let d = below / common;
        if m > LARGEST || d > LARGEST {
            return Err(NumberFault::Beyond);
        }
        let minus = (top < 0) != (bottom < 0);
        Ok(Ratio {
            num: with_sign(minus, m),
            den: d as u32,
        })
    }
}
