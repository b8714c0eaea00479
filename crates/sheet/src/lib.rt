// A sheet of lines over set points, in exact numbers of any kind.
#![tactic(auto)]

pub mod answer;
pub mod fault;
mod reading;
pub mod sheet;
pub mod size;
pub mod trial;
