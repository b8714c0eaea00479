ghost use Rattle.std.specs.Prelude.{◌≡◌};
ghost use Rattle.printing.specs.Faults.{print_report};

use exact::report::{Layer, Report};

// Why a row is not written.
#[derive(Clone, Copy, PartialEq, Eq, Debug)]
pub enum PrintFault {
    // Fewer than 2,048 bytes are lent, or a clash has more lines than any sheet.
    Room,
}

impl From<PrintFault> for Report {
    ghost from_gives = { λ x r. r ≡ print_report x };

    fn from(fault: PrintFault) -> Report {
        match fault {
            PrintFault::Room => Report {
                number: 4,
                layer: Layer::Text,
                place: 0,
            },
        }
    }
}
