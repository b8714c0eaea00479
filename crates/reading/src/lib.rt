// The form of a recipe line, and its reader.
#![tactic(auto)]

pub mod fault;
mod figure;
pub mod laws;
pub mod line;
mod mark;
pub mod read;
mod stage;
mod step;
pub mod term;
