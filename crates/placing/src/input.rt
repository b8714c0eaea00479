ghost use Rattle.placing.specs.Input.{Opened};

use crate::fault::TextFault;
use cutting::heading::Heading;
use cutting::lines::Lines;
use cutting::read::read_heading;

// The most bytes of an input.
pub const MOST_BYTES: usize = 16384;

// Takes the first line of an input, its heading.
pub fn open_input(input: &mut Lines<'_>) -> Result<Heading, TextFault>
    ensures { Opened input.old input.new result }
{
    if input.rest.len() > MOST_BYTES {
        return Err(TextFault::TooLong);
    }
    let line = input.take_line().ok_or(TextFault::Heading)?;
    Ok(read_heading(line)?)
}
