// The part of the library that raises a fault.
#[derive(Clone, Copy, PartialEq, Eq, Debug)]
pub enum Layer {
    Numbers,
    Sheet,
    Text,
}

// What every fault tells: its number, its layer, and its place, 0 where it names none.
// Numbers, and no enum or Option: this is the row that is printed, and each fault is an enum before it is a report.
#[derive(Clone, Copy, PartialEq, Eq, Debug)]
pub struct Report {
    pub number: u8,
    pub layer: Layer,
    pub place: usize,
}
