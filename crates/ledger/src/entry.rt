// A held line: its label, and its subject, the set point (from 0) that its row is solved for.
#[derive(Clone, Copy, PartialEq, Eq, Debug)]
pub struct Entry {
    pub label: u32,
    pub subject: u8,
}
