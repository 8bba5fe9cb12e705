// The sixteen columns of a row of characters: the low digit of the byte that a character is sent as.
ghost use Rattle.std.specs.Prelude.{◌≡◌, ◌<◌};
ghost use Rattle.code.specs.Number.{numbered};
ghost use Rattle.code.specs.Column.{column_at, column_number};

use crate::number::NoSuchNumber;

#[derive(Clone, Copy, Debug, PartialEq, Eq)]
pub enum Column {
    C0,
    C1,
    C2,
    C3,
    C4,
    C5,
    C6,
    C7,
    C8,
    C9,
    CA,
    CB,
    CC,
    CD,
    CE,
    CF,
}

impl TryFrom<u8> for Column {
    type Error = NoSuchNumber;

    ghost try_from_gives = { λ n r. r ≡ numbered 16 column_at n };

    // The column of a number of 0 to 15.
    fn try_from(n: u8) -> Result<Column, NoSuchNumber> {
        match n {
            0 => Ok(Column::C0),
            1 => Ok(Column::C1),
            2 => Ok(Column::C2),
            3 => Ok(Column::C3),
            4 => Ok(Column::C4),
            5 => Ok(Column::C5),
            6 => Ok(Column::C6),
            7 => Ok(Column::C7),
            8 => Ok(Column::C8),
            9 => Ok(Column::C9),
            10 => Ok(Column::CA),
            11 => Ok(Column::CB),
            12 => Ok(Column::CC),
            13 => Ok(Column::CD),
            14 => Ok(Column::CE),
            15 => Ok(Column::CF),
            _ => Err(NoSuchNumber),
        }
    }
}

impl Column {
    // The column's number.
    pub fn number(self) -> u8
        ensures { result ≡ column_number self }
    {
        self as u8
    }
}
