ghost use Rattle.fractions.specs.Lowest.{LowestTerms};

mod making;
pub mod number;
pub mod shown;

// A fraction in lowest terms, neither part beyond a million.
#[derive(Clone, Copy, PartialEq, Eq, Debug)]
pub struct Ratio {
    num: i32,
    den: u32,
    ghost held: { LowestTerms num den },
}
