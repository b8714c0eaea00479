ghost use Rattle.reading.specs.Marks.{mark};

use std::marker::Model;

// A digit of a number.
#[derive(Clone, Copy)]
pub struct Digit {
    pub value: u8,
}

impl Model for Digit {
    ghost use Rattle.std.specs.Prelude.{ℕ, ◌<◌};

    ghost Value = { ℕ };

    ghost view = { λ d. d.value };

    ghost invariant = { λ d. d.value < 10 };

    ghost inverse = { λ n. record { value = n } };
}

// What a byte is to a line.
#[derive(Clone, Copy)]
pub enum Mark {
    Space,
    Digit(Digit),
    SetPoint,
    Plus,
    Minus,
    Equals,
    Other,
}

impl From<u8> for Mark {
    ghost use Rattle.std.specs.Prelude.{◌≡◌};

    ghost from_gives = { λ b m. m ≡ mark b };

    fn from(byte: u8) -> Mark {
        match byte {
            b' ' => Mark::Space,
            b'0'..=b'9' => Mark::Digit(Digit { value: byte - b'0' }),
            b'q' => Mark::SetPoint,
            b'+' => Mark::Plus,
            b'-' => Mark::Minus,
            b'=' => Mark::Equals,
            _ => Mark::Other,
        }
    }
}
