// Fractions in lowest terms, with neither part beyond a million, as a number kind.
#![tactic(auto)]

pub mod example;
mod gcd;
pub mod ratio;
#[cfg(test)]
mod tests;
