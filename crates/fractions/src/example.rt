ghost use Rattle.std.specs.Prelude.{pos};
ghost use Rattle.fractions.specs.Example.{Written, Unwritten};

// 2/4 is 1/2, and 1/1000001 is beyond the limit.
pub fn lowest_terms_example()
    ensures { (Written (pos 2) (pos 4) (pos 1) 2) × (Unwritten (pos 1) (pos 1000001)) }
{}
