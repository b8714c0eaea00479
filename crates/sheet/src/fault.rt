ghost use Rattle.std.specs.Prelude.{◌≡◌};
ghost use Rattle.sheet.specs.Faults.{trial_report, wait_report};
ghost use Rattle.sheet.specs.Listing.{list_report};

use elimination::fault::SheetFault;
use exact::report::{Layer, Report};

// A list that stopped at the line of this index, from 1; 0 where the whole list is refused.
#[derive(Clone, Copy, PartialEq, Eq, Debug)]
pub struct ListFault {
    // No Option: the rules of `check` (docs/SHEET.md) tell a refused list by the index 0.
    pub index: usize,
    pub fault: SheetFault,
}

impl From<ListFault> for Report {
    ghost from_gives = { λ x r. r ≡ list_report x };

    fn from(stop: ListFault) -> Report {
        Report::from(stop.fault)
    }
}

// Why a trial is not opened, or not closed.
#[derive(Clone, Copy, PartialEq, Eq, Debug)]
pub enum TrialFault {
    // Eight trials are open already.
    Depth,
    // The trial is not the innermost open one of this sheet.
    OtherTrial,
}

impl From<TrialFault> for Report {
    ghost from_gives = { λ x r. r ≡ trial_report x };

    fn from(fault: TrialFault) -> Report {
        let number = match fault {
            TrialFault::Depth => 6,
            TrialFault::OtherTrial => 7,
        };
        Report {
            number,
            layer: Layer::Sheet,
            place: 0,
        }
    }
}

// Why a wait is not placed, or not taken back.
#[derive(Clone, Copy, PartialEq, Eq, Debug)]
pub enum WaitFault {
    // A set point outside 1 to n.
    SetPoint,
    // A wait for this set point stands already.
    Waiting,
    // No wait for this set point stands.
    NotWaiting,
}

impl From<WaitFault> for Report {
    ghost from_gives = { λ x r. r ≡ wait_report x };

    fn from(fault: WaitFault) -> Report {
        let number = match fault {
            WaitFault::SetPoint => 2,
            WaitFault::Waiting => 8,
            WaitFault::NotWaiting => 9,
        };
        Report {
            number,
            layer: Layer::Sheet,
            place: 0,
        }
    }
}
