ghost use Rattle.std.specs.Prelude.{◌≡◌, ◌≤◌, IfSome, unsigned_abs};
ghost use Rattle.reading.specs.Reading.{meaning_of};
ghost use Rattle.placing.specs.Columns.{column, number_at, fault_placed};

use crate::fault::TextFault;
use crate::first::first_of;
use elimination::fault::SheetFault;
use reading::line::Line;

// The column where the number at a position of the line over n set points begins. One without a digit has none, but is at most 1 either way.
pub fn column_of(line: &Line, n: usize, position: usize) -> Option<usize>
    ensures is { result ≡ column (meaning_of line.now) n position }
    ensures counted { IfSome result (λ c. 1 ≤ c) }
    ensures digit { 1 ≤ position → result ≡ None → unsigned_abs (number_at (meaning_of line.now) n position) ≤ 1 }
{
    if position.checked_sub(1) == Some(n) {
        return Some(line.start);
    }
    first_of(line.terms(), position)?.start
}

// The sheet's refusal of a line, at the column of the number that it names.
pub fn refusal_of(fault: SheetFault, line: &Line, n: usize) -> TextFault
    ensures { result ≡ fault_placed fault (meaning_of line.now) n }
{
    let column = match fault {
        SheetFault::Limit { position } => column_of(line, n, position),
        _ => None,
    };
    TextFault::Sheet { fault, column }
}
