ghost use Rattle.cutting.specs.Heading.{ReadsLetter};

// The letter of a number kind: R for fractions, P for parity, I for the index.
#[derive(Clone, Copy, PartialEq, Eq, Debug)]
pub enum KindLetter {
    R,
    P,
    I,
}

#[derive(Clone, Copy, PartialEq, Eq, Debug)]
pub struct Heading {
    pub kind: KindLetter,
    pub n: usize,
}

// Why a text is no heading.
#[derive(Clone, Copy, PartialEq, Eq, Debug)]
pub enum HeadingFault {
    // It is not a letter, a space and one or two digits.
    Form,
    // Its n is not one of 1 to 48.
    Size,
}

impl TryFrom<u8> for KindLetter {
    type Error = HeadingFault;

    ghost try_from_gives = { ReadsLetter };

    fn try_from(byte: u8) -> Result<KindLetter, HeadingFault> {
        match byte {
            b'R' => Ok(KindLetter::R),
            b'P' => Ok(KindLetter::P),
            b'I' => Ok(KindLetter::I),
            _ => Err(HeadingFault::Form),
        }
    }
}
