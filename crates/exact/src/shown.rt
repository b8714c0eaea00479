ghost use Rattle.std.specs.Prelude.{◌≡◌, ◌≤◌, pos, unsigned_abs};
ghost use Rattle.exact.specs.Fraction.{fraction};

use crate::number::Number;

// A fraction as it is printed.
#[derive(Clone, Copy, PartialEq, Eq, Debug)]
pub struct Parts {
    pub top: i32,
    pub bottom: u32,
}

// A kind whose values can be printed: each tells a fraction of numbers up to a million.
// Not `Into<Parts>`: a bound on that needs a law to say which parts it gives.
pub trait Shown: Number {
    fn parts(self) -> Parts
        ensures told { Self.Number.kind.tells self ≡ fraction result.top (pos result.bottom) }
        ensures small { (unsigned_abs result.top ≤ 1000000) × (1 ≤ result.bottom) × (result.bottom ≤ 1000000) };
}
