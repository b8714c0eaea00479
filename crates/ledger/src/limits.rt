// A sheet has at most so many set points, and so at most so many held lines.
pub const MOST_SET_POINTS: usize = 48;

// At most so many trials are open at once.
pub const MOST_TRIALS: usize = 8;

// A label is from 1 to this.
pub const LAST_LABEL: u32 = 1_000_000;
