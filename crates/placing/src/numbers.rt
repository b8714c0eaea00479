ghost use Rattle.placing.specs.Answers.{Answered};

use crate::check::check_terms;
use crate::fault::TextFault;
use crate::fill::{fill, signed};
use reading::line::Line;
use reading::read::read_line;

// Reads a text as a line over n set points, and writes its n + 1 numbers.
pub fn read_numbers(text: &[u8], n: usize, out: &mut [i32]) -> Result<Line, TextFault>
    ensures { Answered text.now n out.old out.new result }
{
    if out.len() <= n {
        return Err(TextFault::Room);
    }
    let line = read_line(text)?;
    check_terms(line.terms(), n)?;
    let constant = signed(line.negative, line.constant);
    fill(line.terms(), n, constant, out);
    Ok(line)
}
