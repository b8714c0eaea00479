ghost use Rattle.std.specs.Prelude.{◌≡◌, Bool, T};
ghost use Rattle.exact.specs.Fraction.{Fraction};
ghost use Rattle.exact.specs.Kind.{Kind, Lawful};
ghost use Rattle.exact.specs.Answers.{whole_of, less_of, over_of};

use crate::fault::NumberFault;

// A kind of exact numbers. A value tells a fraction; the functions go by the fractions told alone, and write one value for each number.
pub trait Number: Copy {
    // What the functions go by: the fraction that a value tells, the one value written for a number, the test for 0.
    ghost kind: { Kind Self };

    // Which fractions are numbers of the kind.
    ghost admits: { Fraction → Type 0 };

    // When two admitted fractions are the same number.
    ghost alike: { Fraction → Fraction → Type 0 };

    // Whether the kind holds all the numbers that it admits: then no answer is `Beyond`.
    const COMPLETE: bool;

    // The constant, in clauses.
    ghost COMPLETE: { Bool };

    ghost laws: { Lawful kind admits alike COMPLETE };

    final fn is_complete() -> bool
        ensures { result ≡ COMPLETE }
    {
        Self::COMPLETE
    }

    // The value of a whole number. Not `TryFrom<i32>`: a bound on that needs a law to say which value it gives.
    fn whole(a: i32) -> Result<Self, NumberFault>
        ensures { result ≡ whole_of kind a };

    // self - b * c, as one operation: only the result has to be held.
    fn less_times(self, b: Self, c: Self) -> Result<Self, NumberFault>
        ensures { result ≡ less_of kind self b c };

    // self / b.
    fn quotient(self, b: Self) -> Result<Self, NumberFault>
        ensures { result ≡ over_of kind self b };

    fn is_zero(self) -> bool
        ensures { result ≡ kind.is_zero self };

    // Whether two values tell the same number. Not `==`: the values that no function writes all tell 0, and differ.
    fn same(self, b: Self) -> bool
        ensures sure { T result → alike (kind.tells self) (kind.tells b) }
        ensures whenever { alike (kind.tells self) (kind.tells b) → T result };
}
