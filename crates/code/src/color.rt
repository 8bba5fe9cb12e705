// The seven colours of a character, in the order of their codes.
ghost use Rattle.std.specs.Prelude.{◌≡◌, ◌<◌};
ghost use Rattle.code.specs.Number.{numbered};
ghost use Rattle.code.specs.Color.{color_at, color_number};

use crate::number::NoSuchNumber;

#[derive(Clone, Copy, Debug, PartialEq, Eq)]
pub enum Color {
    White,
    Green,
    Blue,
    Cyan,
    Red,
    Yellow,
    Magenta,
}

impl TryFrom<u8> for Color {
    type Error = NoSuchNumber;

    ghost try_from_gives = { λ n r. r ≡ numbered 7 color_at n };

    // The colour of a number of 0 to 6.
    fn try_from(n: u8) -> Result<Color, NoSuchNumber> {
        match n {
            0 => Ok(Color::White),
            1 => Ok(Color::Green),
            2 => Ok(Color::Blue),
            3 => Ok(Color::Cyan),
            4 => Ok(Color::Red),
            5 => Ok(Color::Yellow),
            6 => Ok(Color::Magenta),
            _ => Err(NoSuchNumber),
        }
    }
}

impl Color {
    // The colour's number, 0 to 6.
    pub fn number(self) -> u8
        ensures { result ≡ color_number self }
    {
        self as u8
    }
}
