// The rows that are printed, as exact bytes over a lent slice.
#![tactic(auto)]

pub mod entry;
pub mod fault;
mod put;
pub mod row;
