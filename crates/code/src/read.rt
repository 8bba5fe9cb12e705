// Reading a pair: what was received becomes a command, or two single codes.
ghost use Rattle.std.specs.Prelude.{◌≡◌, ◌≤◌, ◌<◌, ◌%◌, ◌/◌};
ghost use Rattle.code.specs.Read.{read_pair, from_data_outcome, single, channel_of, control_code_of, field_of, without_field, meaning, symbol_in};
ghost use Rattle.code.specs.Tables.{first_row_at, tab_in};
ghost use Rattle.code.specs.Control.{command_at};
ghost use Rattle.code.specs.Preamble.{style_at};

use crate::channel::{Channel, Field};
use crate::code::Code;
use crate::column::Column;
use crate::control::{Command, Control, ControlCode, Tab, names_field};
use crate::letter::Letter;
use crate::midrow::MidRow;
use crate::pair::Pair;
use crate::parity::{check_odd_parity, strip_parity};
use crate::preamble::{PreambleAddressCode, PreambleType};
use crate::symbol::{Symbol, SymbolRow};

// Refusal 1: a byte of the pair has an even count of ones.
#[derive(Clone, Copy, Debug, PartialEq, Eq)]
pub struct InvalidParity;

impl Code {
    // The codes of a pair: a command and NUL, or two single codes. Of a command 10 to 17 is channel one, 18 to 1F two; with
    // a call for each, the compiler leaves the parsing out of the code for text.
    #[tactic(auto, unfolding(crate::specs::Read::read_pair))]
    pub fn from_data(pair: Pair) -> Result<(Code, Code), InvalidParity>
        ensures { from_data_outcome result ≡ read_pair pair.0 pair.1 }
    {
        if !check_odd_parity(pair.0) || !check_odd_parity(pair.1) {
            return Err(InvalidParity);
        }
        let first = strip_parity(pair.0);
        let second = strip_parity(pair.1);
        if first / 16 == 1 {
            let code = if first < 0x18 {
                ControlCode::parse(Channel::ONE, first, second)
            } else {
                ControlCode::parse(Channel::TWO, first, second)
            };
            Ok((Code::Control(code), Code::Nul))
        } else {
            Ok((Code::from_byte(first), Code::from_byte(second)))
        }
    }

    // The code of one stripped byte. No table is searched: that of the characters has every byte from 20 on.
    pub(crate) fn from_byte(byte: u8) -> Code
        requires { byte < 128 }
        ensures { result ≡ single byte }
    {
        if 0x20 <= byte {
            Code::Letter(Letter::try_from(byte - 0x20).unwrap())
        } else if byte == 0 {
            Code::Nul
        } else {
            Code::Unknown(byte)
        }
    }
}

impl ControlCode {
    // The control code of two stripped bytes, for the channel that the first names.
    pub(crate) fn parse(channel: Channel, first: u8, second: u8) -> ControlCode
        requires { (16 ≤ first) × (first < 32) × (second < 128) × (channel ≡ channel_of first) }
        ensures { result ≡ control_code_of first second }
    {
        let bytes = ControlBytes {
            prefix: first % 8 + 0x10,
            second,
        };
        let meaning = bytes.without_field().meaning();
        ControlCode {
            field: bytes.field(),
            channel,
            control: meaning.unwrap_or(Control::Unknown(first, second)),
        }
    }
}

// The two stripped bytes of a control code, without the channel's bit.
#[derive(Clone, Copy)]
pub(crate) struct ControlBytes {
    pub prefix: u8,
    pub second: u8,
    ghost from_10_to_17: { (16 ≤ prefix) × (prefix < 24) },
    ghost seven_bits: { second < 128 },
}

impl ControlBytes {
    // The field that they name.
    pub(crate) fn field(self) -> Option<Field>
        ensures { result ≡ field_of self.prefix self.second }
    {
        match self.prefix {
            0x14 if names_field(self.second) => Some(Field::ONE),
            0x15 if names_field(self.second) => Some(Field::TWO),
            _ => None,
        }
    }

    // The bytes as field one has them: 15 before 20 to 2F is 14.
    pub(crate) fn without_field(self) -> ControlBytes
        ensures first { result.prefix ≡ without_field self.prefix self.second }
        ensures second { result.second ≡ self.second }
    {
        if names_field(self.second) && self.prefix == 0x15 {
            ControlBytes {
                prefix: 0x14,
                second: self.second,
            }
        } else {
            self
        }
    }

    // What they mean, channel and field aside: below 40 the first byte and the second's upper digit decide.
    #[tactic(auto, using(crate::proofs::Meaning::other_told))]
    pub(crate) fn meaning(self) -> Option<Control>
        ensures { result ≡ meaning self.prefix self.second }
    {
        let second = self.second;
        if 0x40 <= second {
            return self.preamble();
        }
        match (self.prefix, second / 16) {
            (0x11, 2) => Some(Control::MidRow(MidRow::at(second % 16 / 2, second % 2 == 1))),
            (0x11, 3) => Some(symbol_in(SymbolRow::Special, second)),
            (0x12, 2) => Some(symbol_in(SymbolRow::Spanish, second)),
            (0x12, 3) => Some(symbol_in(SymbolRow::French, second)),
            (0x13, 2) => Some(symbol_in(SymbolRow::Portuguese, second)),
            (0x13, 3) => Some(symbol_in(SymbolRow::German, second)),
            (0x14, 2) => Some(Control::Command(self.command())),
            (0x17, 2) => tab_in(second),
            _ => None,
        }
    }

    // The command in the low digit of the second byte.
    #[tactic(auto, using(crate::proofs::Numbers::value_told))]
    pub(crate) fn command(self) -> Command
        ensures { result ≡ command_at (self.second % 16) }
    {
        Command::try_from(self.second % 16).unwrap()
    }

    // The style of a preamble, in bits 0x1E of the second byte.
    #[tactic(auto, using(crate::proofs::Numbers::value_told))]
    pub(crate) fn style(self) -> PreambleType
        ensures { result ≡ style_at (self.second % 32 / 2) }
    {
        PreambleType::try_from(self.second % 32 / 2).unwrap()
    }

    // The preamble of two bytes, the second from 40 on, or nothing: 10 before 60 to 7F is no row.
    #[tactic(auto, using(crate::proofs::Meaning::row_told))]
    pub(crate) fn preamble(self) -> Option<Control>
        requires { 64 ≤ self.second }
        ensures { result ≡ meaning self.prefix self.second }
    {
        let first = first_row(self.prefix % 8);
        let row = if self.second < 0x60 {
            first
        } else if self.prefix == 0x10 {
            return None;
        } else {
            first + 1
        };
        Some(Control::Preamble(PreambleAddressCode {
            row,
            underline: self.second % 2 == 1,
            ty: self.style(),
        }))
    }
}

// The symbol of a row, its column in the low digit of the second byte.
pub(crate) fn symbol_in(row: SymbolRow, second: u8) -> Control
    ensures { Some result ≡ symbol_in row second }
{
    Control::Symbol(Symbol {
        row,
        column: Column::try_from(second % 16).unwrap(),
    })
}

// The tab of a second byte after 17, or nothing.
pub(crate) fn tab_in(second: u8) -> Option<Control>
    ensures { result ≡ tab_in second }
{
    match second {
        0x21 => Some(Control::Tab(Tab::TabOffset1)),
        0x22 => Some(Control::Tab(Tab::TabOffset2)),
        0x23 => Some(Control::Tab(Tab::TabOffset3)),
        _ => None,
    }
}

// The row of 40 to 5F after each of the first bytes 10 to 17.
pub(crate) fn first_row(prefix: u8) -> u8
    requires { prefix < 8 }
    ensures { result ≡ first_row_at prefix }
{
    match prefix {
        0 => 10,
        1 => 0,
        2 => 2,
        3 => 11,
        4 => 13,
        5 => 4,
        6 => 6,
        _ => 8,
    }
}
