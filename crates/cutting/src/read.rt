ghost use Rattle.cutting.specs.Heading.{Headed, Parts, ReadsDigit};

use crate::heading::{Heading, HeadingFault, KindLetter};

// Reads the first line of an input.
pub fn read_heading(line: &[u8]) -> Result<Heading, HeadingFault>
    ensures { Headed line.now result }
{
    let heading = heading_of(line)?;
    // The most set points by number: cutting does not know the sheet.
    if !(1..=48).contains(&heading.n) {
        return Err(HeadingFault::Size);
    }
    Ok(heading)
}

// A letter, a space, and one or two digits.
fn heading_of(line: &[u8]) -> Result<Heading, HeadingFault>
    ensures { Parts line.now result }
{
    let (letter, n) = match line {
        [letter, b' ', ones] => (*letter, digit(*ones)?),
        [letter, b' ', tens, ones] => (*letter, 10 * digit(*tens)? + digit(*ones)?),
        _ => return Err(HeadingFault::Form),
    };
    let kind = KindLetter::try_from(letter)?;
    Ok(Heading { kind, n })
}

fn digit(byte: u8) -> Result<usize, HeadingFault>
    ensures { ReadsDigit byte result }
{
    let value = (byte as char).to_digit(10).ok_or(HeadingFault::Form)?;
    Ok(value as usize)
}
