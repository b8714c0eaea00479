// A text that is no line: the first column, from 1, where no line goes on.
#[derive(Clone, Copy, PartialEq, Eq, Debug)]
pub struct FormFault {
    pub column: usize,
}
