// A line of a clash's evidence: its place, its label, and how many times it counts.
#[derive(Clone, Copy, PartialEq, Eq, Debug)]
pub struct Record<K> {
    pub place: usize,
    pub label: u32,
    pub multiplier: K,
}
