// Rows of numbers of any kind: elimination's operations on them.
#![tactic(auto)]

pub mod fault;
pub mod row;
pub mod table;
