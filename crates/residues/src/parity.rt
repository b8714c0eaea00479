pub mod number;
pub mod shown;

// A number by its remainder by 2: 0 is shut, 1 is open.
// No `Residue<2>` beside a `Residue<127>`: the two values have names that callers match on, and need no table of reciprocals.
#[derive(Clone, Copy, PartialEq, Eq, Debug)]
pub enum Parity {
    Shut,
    Open,
}
