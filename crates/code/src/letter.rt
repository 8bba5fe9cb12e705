// The standard characters: each is its place in the table of 0x20 to 0x7F, six rows of sixteen.
ghost use Rattle.std.specs.Prelude.{◌≡◌, ◌<◌};
ghost use Rattle.code.specs.Number.{numbered};
ghost use Rattle.code.specs.Letter.{letter_row_at, letter_row_number, letter_at, letter_place};

use crate::column::Column;
use crate::number::NoSuchNumber;

// The rows, by the high digit of the byte.
#[derive(Clone, Copy, Debug, PartialEq, Eq)]
pub enum LetterRow {
    Row2,
    Row3,
    Row4,
    Row5,
    Row6,
    Row7,
}

#[derive(Clone, Copy, Debug, PartialEq, Eq)]
pub struct Letter {
    pub row: LetterRow,
    pub column: Column,
}

impl TryFrom<u8> for LetterRow {
    type Error = NoSuchNumber;

    ghost try_from_gives = { λ n r. r ≡ numbered 6 letter_row_at n };

    // The row of a number of 0 to 5.
    fn try_from(n: u8) -> Result<LetterRow, NoSuchNumber> {
        match n {
            0 => Ok(LetterRow::Row2),
            1 => Ok(LetterRow::Row3),
            2 => Ok(LetterRow::Row4),
            3 => Ok(LetterRow::Row5),
            4 => Ok(LetterRow::Row6),
            5 => Ok(LetterRow::Row7),
            _ => Err(NoSuchNumber),
        }
    }
}

impl LetterRow {
    // The row's number, from 0 for 0x20.
    pub fn number(self) -> u8
        ensures { result ≡ letter_row_number self }
    {
        self as u8
    }
}

impl TryFrom<u8> for Letter {
    type Error = NoSuchNumber;

    ghost try_from_gives = { λ n r. r ≡ numbered 96 letter_at n };

    // The letter at a place of 0 to 95.
    fn try_from(place: u8) -> Result<Letter, NoSuchNumber> {
        Ok(Letter {
            row: LetterRow::try_from(place / 16)?,
            column: Column::try_from(place % 16).unwrap(),
        })
    }
}

impl Letter {
    // The letter's place, from 0 for the space.
    pub fn place(self) -> u8
        ensures { result ≡ letter_place self }
    {
        self.row.number() * 16 + self.column.number()
    }
}
