ghost use Rattle.std.specs.Prelude.{◌≡◌};
ghost use Rattle.placing.specs.Faults.{text_report, form_raised, heading_raised, print_raised, sheet_raised};

use crate::fault::TextFault;
use cutting::heading::HeadingFault;
use elimination::fault::SheetFault;
use exact::report::{Layer, Report};
use printing::fault::PrintFault;
use reading::fault::FormFault;

impl From<FormFault> for TextFault {
    ghost from_gives = { λ x r. r ≡ form_raised x };

    fn from(fault: FormFault) -> TextFault {
        TextFault::Form {
            column: fault.column,
        }
    }
}

impl From<HeadingFault> for TextFault {
    ghost from_gives = { λ x r. r ≡ heading_raised x };

    fn from(fault: HeadingFault) -> TextFault {
        match fault {
            HeadingFault::Form => TextFault::Heading,
            HeadingFault::Size => TextFault::from(SheetFault::Size),
        }
    }
}

impl From<PrintFault> for TextFault {
    ghost from_gives = { λ x r. r ≡ print_raised x };

    fn from(fault: PrintFault) -> TextFault {
        match fault {
            PrintFault::Room => TextFault::Room,
        }
    }
}

impl From<SheetFault> for TextFault {
    ghost from_gives = { λ x r. r ≡ sheet_raised x };

    fn from(fault: SheetFault) -> TextFault {
        TextFault::Sheet {
            fault,
            column: None,
        }
    }
}

impl From<TextFault> for Report {
    ghost from_gives = { λ x r. r ≡ text_report x };

    fn from(fault: TextFault) -> Report {
        let (number, place) = match fault {
            TextFault::Room => (4, 0),
            TextFault::Form { column } => (22, column),
            TextFault::Heading => (22, 0),
            TextFault::OutsideSetPoint { column } => (23, column),
            TextFault::TwiceSetPoint { column } => (24, column),
            TextFault::TooLong => (26, 0),
            // A number outside its limits is told by its column in the text, and no longer by its position.
            TextFault::Sheet {
                fault: limit @ SheetFault::Limit { .. },
                column,
            } => {
                return Report {
                    place: column.unwrap_or(0),
                    ..Report::from(limit)
                };
            }
            TextFault::Sheet { fault, .. } => return Report::from(fault),
        };
        Report {
            number,
            layer: Layer::Text,
            place,
        }
    }
}
