// Lists of at most so many items, in fixed memory.
#![tactic(auto, using(crate::proofs::Counts::items_count), unfolding(crate::specs::Items::items))]

pub mod bounded;
