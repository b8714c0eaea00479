ghost use Rattle.std.specs.Prelude.{◌≡◌};
ghost use Rattle.exact.specs.Faults.{number_report};

use crate::report::{Layer, Report};

// Why a function of a number kind answers no value.
#[derive(Clone, Copy, PartialEq, Eq, Debug)]
pub enum NumberFault {
    // The exact number is beyond those that the kind holds.
    Beyond,
    // A quotient by 0.
    ByZero,
}

impl From<NumberFault> for Report {
    ghost from_gives = { λ x r. r ≡ number_report x };

    fn from(fault: NumberFault) -> Report {
        let number = match fault {
            NumberFault::Beyond => 40,
            NumberFault::ByZero => 41,
        };
        Report {
            number,
            layer: Layer::Numbers,
            place: 0,
        }
    }
}
