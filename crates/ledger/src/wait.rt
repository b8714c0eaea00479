// A wait for a set point, counted from 1.
#[derive(Clone, Copy, PartialEq, Eq, Debug)]
pub struct Wait {
    pub set_point: u8,
}
