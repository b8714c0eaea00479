// What becomes of a line that is not refused.
// No Option, which would be no plainer: that it follows and that it is held are two answers, with a name and a printed row each.
#[derive(Clone, Copy, PartialEq, Eq, Debug)]
pub enum Stated {
    // The held lines say it already; it is not held.
    Follows,
    // It is held at this place, counted from 1.
    Held { place: usize },
}
