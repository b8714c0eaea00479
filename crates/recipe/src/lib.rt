// A recipe from its bytes to the rows that are printed of it.
#![tactic(auto)]

mod adding;
mod answering;
mod settling;
mod stating;
pub mod transcript;
mod working;
