ghost use Rattle.std.specs.Prelude.{◌<◌};

pub mod number;
mod reciprocals;
pub mod shown;

// A number by its remainder by 127: a position on a ring of 127 teeth.
#[derive(Clone, Copy, PartialEq, Eq, Debug)]
pub struct Index {
    teeth: u8,
    ghost below: { teeth < 127 },
}
