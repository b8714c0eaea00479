use elimination::fault::SheetFault;

// Why a text is refused. Columns count from 1.
#[derive(Clone, Copy, PartialEq, Eq, Debug)]
pub enum TextFault {
    // Too few bytes for a row, or numbers for a line.
    Room,
    // No line of the form: the first column where none goes on.
    Form {
        column: usize,
    },
    // The first line of an input is no heading.
    Heading,
    // The number after the q in this column is none of 1 to n.
    OutsideSetPoint {
        column: usize,
    },
    // The set point of the q in this column stood before.
    TwiceSetPoint {
        column: usize,
    },
    // An input over 16,384 bytes.
    TooLong,
    // The sheet's refusal, whole, with the column of the number that it names, if it names one and that has a digit.
    Sheet {
        fault: SheetFault,
        column: Option<usize>,
    },
}
