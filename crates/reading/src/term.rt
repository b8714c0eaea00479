// A term as it stands in the text.
#[derive(Clone, Copy)]
pub struct Term {
    // The sign as read: a minus can stand before digits that are still to come.
    pub negative: bool,
    pub coefficient: u32,
    // The column of the coefficient's first digit.
    pub start: Option<usize>,
    // The column of the q.
    pub place: usize,
    // The number after the q.
    pub number: u32,
}
