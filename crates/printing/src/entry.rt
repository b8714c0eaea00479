use exact::shown::Parts;

// A line of a clash and its multiplier.
#[derive(Clone, Copy)]
pub struct Entry {
    pub label: u32,
    pub multiplier: Parts,
}
