// A code: what one byte or one pair stands for.
ghost use Rattle.std.specs.Prelude.{◌≡◌};
ghost use Rattle.code.specs.Code.{byte_len, needs_backspace, control_needs_backspace, is_extended};

use crate::control::{Control, ControlCode};
use crate::letter::Letter;
use crate::symbol::SymbolRow;

#[derive(Clone, Copy, Debug, PartialEq, Eq)]
pub enum Code {
    // Padding: a receiver shows nothing.
    Nul,
    // Two bytes that a receiver obeys, or shows as a special or extended character.
    Control(ControlCode),
    // One byte that a receiver shows.
    Letter(Letter),
    // One byte that means nothing here. Reading gives 01 to 1F.
    Unknown(u8),
}

impl Code {
    // The bytes that the code fills of a pair: 2 for a control code, else 1.
    pub fn byte_len(self) -> usize
        ensures { result ≡ byte_len self }
    {
        match self {
            Code::Control(_) => 2,
            Code::Nul | Code::Letter(_) | Code::Unknown(_) => 1,
        }
    }

    // Whether the queue puts a space before it. An extended character takes the place of the character before it; for
    // mid-row codes, which take a column of their own, it is the crate's choice.
    pub fn needs_backspace(self) -> bool
        ensures { result ≡ needs_backspace self }
    {
        match self {
            Code::Control(code) => code.control.needs_backspace(),
            Code::Nul | Code::Letter(_) | Code::Unknown(_) => false,
        }
    }
}

impl Control {
    // As `Code::needs_backspace`.
    pub fn needs_backspace(self) -> bool
        ensures { result ≡ control_needs_backspace self }
    {
        match self {
            Control::MidRow(_) => true,
            Control::Symbol(symbol) => symbol.row.is_extended(),
            _ => false,
        }
    }
}

impl SymbolRow {
    // Whether the row is one of the extended ones, 12 and 13.
    pub fn is_extended(self) -> bool
        ensures { result ≡ is_extended self }
    {
        !matches!(self, SymbolRow::Special)
    }
}
