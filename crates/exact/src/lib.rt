// Exact numbers: what a number kind is, and the laws that it keeps.
#![tactic(auto)]

pub mod fault;
pub mod number;
pub mod report;
pub mod shown;
pub mod value;
