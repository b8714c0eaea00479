// The lines of an input, and its heading.
#![tactic(auto)]

pub mod heading;
pub mod laws;
pub mod lines;
pub mod read;
mod take;
