// The characters that are sent as control codes: the special characters and four rows of extended ones.
ghost use Rattle.std.specs.Prelude.{◌≡◌, ◌<◌};
ghost use Rattle.code.specs.Number.{numbered};
ghost use Rattle.code.specs.Symbol.{symbol_row_at, symbol_row_number, symbol_at, symbol_place};

use crate::column::Column;
use crate::number::NoSuchNumber;

// The rows, in the order of their bytes.
#[derive(Clone, Copy, Debug, PartialEq, Eq)]
pub enum SymbolRow {
    // 11 30 to 11 3F.
    Special,
    // 12 20 to 12 2F: Spanish and miscellaneous.
    Spanish,
    // 12 30 to 12 3F.
    French,
    // 13 20 to 13 2F: Portuguese and miscellaneous.
    Portuguese,
    // 13 30 to 13 3F: German and Danish.
    German,
}

// As `Letter`, over other rows: one type over both would need a trait of the rows with a law, longer than what it saves.
#[derive(Clone, Copy, Debug, PartialEq, Eq)]
pub struct Symbol {
    pub row: SymbolRow,
    pub column: Column,
}

impl TryFrom<u8> for SymbolRow {
    type Error = NoSuchNumber;

    ghost try_from_gives = { λ n r. r ≡ numbered 5 symbol_row_at n };

    // The row of a number of 0 to 4.
    fn try_from(n: u8) -> Result<SymbolRow, NoSuchNumber> {
        match n {
            0 => Ok(SymbolRow::Special),
            1 => Ok(SymbolRow::Spanish),
            2 => Ok(SymbolRow::French),
            3 => Ok(SymbolRow::Portuguese),
            4 => Ok(SymbolRow::German),
            _ => Err(NoSuchNumber),
        }
    }
}

impl SymbolRow {
    // The row's number, from 0 for the special characters.
    pub fn number(self) -> u8
        ensures { result ≡ symbol_row_number self }
    {
        self as u8
    }
}

impl TryFrom<u8> for Symbol {
    type Error = NoSuchNumber;

    ghost try_from_gives = { λ n r. r ≡ numbered 80 symbol_at n };

    // The symbol at a place of 0 to 79.
    fn try_from(place: u8) -> Result<Symbol, NoSuchNumber> {
        Ok(Symbol {
            row: SymbolRow::try_from(place / 16)?,
            column: Column::try_from(place % 16).unwrap(),
        })
    }
}

impl Symbol {
    // The symbol's place, from 0 for the registered mark.
    pub fn place(self) -> u8
        ensures { result ≡ symbol_place self }
    {
        self.row.number() * 16 + self.column.number()
    }
}
