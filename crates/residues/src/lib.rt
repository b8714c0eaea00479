// Numbers by their remainders, as number kinds: by 2, and by 127.
#![tactic(auto)]

pub mod example;
pub mod index;
pub mod parity;
#[cfg(test)]
mod tests;
