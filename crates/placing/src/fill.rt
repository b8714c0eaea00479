ghost use Rattle.std.specs.Prelude.{◌≡◌, ◌+◌, ◌<◌, Bool, ◌∷◌, ◌++◌, length, drop, All};
ghost use Rattle.reading.specs.Terms.{Fair};
ghost use Rattle.placing.specs.Numbers.{with_sign, coefficient, coefficients};

use crate::first::first_of;
use reading::term::Term;

// Not one with its like in fractions, over u64: one for both would be public, and had to say what a size past i32 gives.
pub(crate) fn signed(negative: bool, size: u32) -> i32
    requires { size < 10000000 }
    ensures { result ≡ with_sign negative size }
{
    let whole = size as i32;
    if negative { -whole } else { whole }
}

// The coefficient of a set point: that of its first term, 0 where it has none.
fn coefficient_of(terms: &[Term], set_point: usize) -> i32
    requires { All Fair terms.now }
    ensures { result ≡ coefficient terms.now set_point }
{
    first_of(terms, set_point).map_or(0, |term| signed(term.negative, term.coefficient))
}

// Writes the n coefficients and the constant.
pub(crate) fn fill(terms: &[Term], n: usize, constant: i32, out: &mut [i32])
    requires fair { All Fair terms.now }
    requires room { n < length out.old }
    ensures { out.new ≡ coefficients terms.now 1 n ++ (constant ∷ drop (n + 1) out.old) }
{
    for (i, x) in out[..n].iter_mut().enumerate() {
        *x = coefficient_of(terms, i + 1);
    }
    out[n] = constant;
}
