// The numbers of a recipe line, and every fault of the text.
#![tactic(auto)]

mod check;
pub mod column;
pub mod fault;
mod fill;
mod first;
pub mod input;
pub mod numbers;
pub mod raise;
