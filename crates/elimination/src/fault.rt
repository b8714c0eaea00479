ghost use Rattle.std.specs.Prelude.{◌≡◌};
ghost use Rattle.elimination.specs.Faults.{sheet_report, step_raised};

use exact::report::{Layer, Report};
use rows::fault::RowFault;

// The steps of stating a line in which a number can be beyond those of the kind.
#[derive(Clone, Copy, PartialEq, Eq, Debug)]
pub enum Step {
    Forward,
    Divide,
    Back,
}

// A step that stopped: at the held line of this place, 0 for divide, and with the fault of its row. No Option: the rules of stating a line
// (docs/SHEET.md) tell a stop by the step, the place, 0 for divide, and the column.
#[derive(Clone, Copy, PartialEq, Eq, Debug)]
pub struct StepFault {
    pub step: Step,
    pub place: usize,
    pub row: RowFault,
}

// Why a call on a sheet is refused.
#[derive(Clone, Copy, PartialEq, Eq, Debug)]
pub enum SheetFault {
    // n outside 1 to 48, or memory too short.
    Size,
    // A set point outside 1 to n.
    SetPoint,
    // A line that is not n + 1 numbers.
    Length,
    // Too few records or numbers handed over.
    Room,
    // A label outside 1 to 1,000,000.
    Label,
    // A number of a line outside its limits, at this position from 1.
    Limit { position: usize },
    // No values meet the line and the held ones; so many records tell why.
    Clash { count: usize },
    // A number beyond those of the kind.
    Numbers(StepFault),
}

impl From<StepFault> for SheetFault {
    ghost from_gives = { λ x r. r ≡ step_raised x };

    fn from(stop: StepFault) -> SheetFault {
        SheetFault::Numbers(stop)
    }
}

impl From<SheetFault> for Report {
    ghost from_gives = { λ x r. r ≡ sheet_report x };

    fn from(fault: SheetFault) -> Report {
        let (number, place) = match fault {
            SheetFault::Size => (1, 0),
            SheetFault::SetPoint => (2, 0),
            SheetFault::Length => (3, 0),
            SheetFault::Room => (4, 0),
            SheetFault::Label => (5, 0),
            SheetFault::Limit { position } => (20, position),
            SheetFault::Clash { count: _ } => (21, 0),
            SheetFault::Numbers(step) => {
                return Report {
                    place: step.row.column,
                    ..Report::from(step.row.fault)
                };
            }
        };
        Report {
            number,
            layer: Layer::Sheet,
            place,
        }
    }
}
