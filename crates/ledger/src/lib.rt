// The part of a sheet that has no numbers: how many set points, the label and subject of each held line, the open trials and the waits.
#![tactic(auto)]

pub mod entry;
pub mod fault;
pub mod ledger;
pub mod limits;
pub mod marks;
pub mod wait;
pub mod waits;
