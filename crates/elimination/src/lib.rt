// Stating a line over the held ones, in exact numbers of any kind.
#![tactic(auto)]

mod again;
mod backstep;
mod clash;
pub mod fault;
pub mod held;
mod holding;
pub mod record;
mod refusals;
pub mod restating;
pub mod stating;
mod steps;
pub mod working;
mod working_row;
