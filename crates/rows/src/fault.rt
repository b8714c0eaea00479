use exact::fault::NumberFault;

// A row operation that stopped: the column, counted from 1, and the fault of its number.
#[derive(Clone, Copy, PartialEq, Eq, Debug)]
pub struct RowFault {
    pub column: usize,
    pub fault: NumberFault,
}
