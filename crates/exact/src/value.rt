ghost use Rattle.std.specs.Prelude.{◌≡◌};
ghost use Rattle.exact.specs.Answers.{value_of};

use crate::number::Number;

// The value of 0, which every kind holds.
pub fn zero<K: Number>() -> K
    ensures { result ≡ K.kind.nil }
{
    K::whole(0).unwrap()
}

// The value of a whole number: every kind holds those up to a million either way. One that is not held gives 0.
pub fn value_of<K: Number>(a: i32) -> K
    ensures { result ≡ value_of K.kind a }
{
    K::whole(a).unwrap_or_else(|_| zero())
}
