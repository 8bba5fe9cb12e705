// Writing a code into a pair.
ghost use Rattle.std.specs.Prelude.{◌≡◌, ◌<◌};
ghost use Rattle.code.specs.declared.write.WriteError.TheVariants.{NoSuchRow as refused_row};
ghost use Rattle.code.specs.Write.{write_code, written_outcome, as_command, on_line, with_field, with_channel, in_domain, control_in_domain, domain_outcome, control_bytes, bytes_outcome, mid_row_bytes, symbol_bytes, command_bytes, tab_bytes, preamble_bytes, is_seven_bits, of_seven_bits, row_bytes, row_bytes_outcome, seven_bits_outcome};
ghost use Rattle.code.specs.Symbol.{symbol_base};

use crate::channel::{Channel, Field};
use crate::code::Code;
use crate::control::{Command, Control, ControlCode, Tab, names_field};
use crate::midrow::MidRow;
use crate::pair::Pair;
use crate::parity::add_parity;
use crate::preamble::{NoSuchRow, PreambleAddressCode};
use crate::symbol::{Symbol, SymbolRow};
use crate::tables::row_prefix;

// Why a code cannot be written: a byte of an `Unknown` is 80 or more, refusal 2; or refusal 3.
#[derive(Clone, Copy, Debug, PartialEq, Eq)]
pub enum WriteError {
    UnknownByte,
    NoSuchRow,
}

impl From<NoSuchRow> for WriteError {
    ghost from_gives = { λ _ e. e ≡ refused_row };

    fn from(_e: NoSuchRow) -> WriteError {
        WriteError::NoSuchRow
    }
}

// The seven bits of a byte of an `Unknown`.
pub(crate) fn seven_bits(byte: u8) -> Result<u8, WriteError>
    ensures { seven_bits_outcome result ≡ of_seven_bits (is_seven_bits byte) byte }
{
    if byte < 0x80 {
        Ok(byte)
    } else {
        Err(WriteError::UnknownByte)
    }
}

impl Code {
    // The pair that the code is sent as, and how many of its bytes the code fills: a single code with NUL after it, a
    // command by itself.
    #[tactic(auto, unfolding(crate::specs::Write::write_code))]
    pub fn write(self) -> Result<(Pair, usize), WriteError>
        ensures { written_outcome result ≡ write_code self }
    {
        let byte = match self {
            Code::Nul => 0,
            Code::Control(code) => return code.write(),
            Code::Letter(letter) => 0x20 + letter.place(),
            Code::Unknown(byte) => seven_bits(byte)?,
        };
        Ok((Pair(add_parity(byte), 0x80), 1))
    }

    // Whether the code can be written, without writing it.
    #[tactic(auto, unfolding(crate::specs::Write::in_domain))]
    pub fn domain(self) -> Result<(), WriteError>
        ensures { domain_outcome result ≡ in_domain self }
    {
        match self {
            Code::Control(code) => code.control.domain(),
            Code::Unknown(byte) => {
                seven_bits(byte)?;
                Ok(())
            }
            Code::Nul | Code::Letter(_) => Ok(()),
        }
    }
}

impl Control {
    // As `Code::domain`.
    pub(crate) fn domain(self) -> Result<(), WriteError>
        ensures { domain_outcome result ≡ control_in_domain self }
    {
        match self {
            Control::Preamble(preamble) => {
                PreambleAddressCode::new(preamble.row, preamble.underline, preamble.ty)?;
                Ok(())
            }
            Control::Unknown(first, second) => {
                seven_bits(first)?;
                seven_bits(second)?;
                Ok(())
            }
            _ => Ok(()),
        }
    }
}

impl ControlCode {
    // The pair that the control code is sent as.
    pub(crate) fn write(self) -> Result<(Pair, usize), WriteError>
        ensures { written_outcome result ≡ as_command self.field self.channel (control_bytes self.control) }
    {
        let bytes = self.control.bytes()?;
        Ok((on_line(self.field, self.channel, bytes), 2))
    }
}

// Two bytes with their field, channel and parity.
#[tactic(auto, unfolding(crate::specs::Write::on_line))]
pub fn on_line(field: Option<Field>, channel: Channel, bytes: Pair) -> Pair
    ensures { result ≡ on_line field channel bytes }
{
    let first = with_channel(channel, with_field(field, bytes));
    Pair(add_parity(first), add_parity(bytes.1))
}

// The first byte for a field: 15 for 14 before 20 to 2F on field two.
pub(crate) fn with_field(field: Option<Field>, bytes: Pair) -> u8
    ensures { result ≡ with_field field bytes }
{
    match field {
        Some(Field(false)) if bytes.0 == 0x14 && names_field(bytes.1) => 0x15,
        _ => bytes.0,
    }
}

// The first byte for a channel: with bit 0x08 for channel two.
pub(crate) fn with_channel(channel: Channel, first: u8) -> u8
    ensures { result ≡ with_channel channel first }
{
    if channel.0 || first / 8 % 2 == 1 {
        first
    } else {
        first + 8
    }
}

impl Control {
    // The two bytes of a control, channel, field and parity aside.
    #[tactic(auto, unfolding(crate::specs::Write::control_bytes))]
    pub(crate) fn bytes(self) -> Result<Pair, WriteError>
        ensures { bytes_outcome result ≡ control_bytes self }
    {
        match self {
            Control::MidRow(code) => Ok(code.bytes()),
            Control::Symbol(symbol) => Ok(symbol.bytes()),
            Control::Command(command) => Ok(command.bytes()),
            Control::Tab(tab) => Ok(tab.bytes()),
            Control::Preamble(preamble) => Ok(preamble.bytes()?),
            Control::Unknown(first, second) => Ok(Pair(seven_bits(first)?, seven_bits(second)?)),
        }
    }
}

impl MidRow {
    // 11, then 20 and on: twice the number of the colour, and the underline.
    pub fn bytes(self) -> Pair
        ensures { result ≡ mid_row_bytes self }
    {
        Pair(0x11, 0x20 + 2 * self.number() + self.underline as u8)
    }
}

impl SymbolRow {
    // The bytes of the row's first symbol.
    pub(crate) fn base(self) -> Pair
        ensures { result ≡ symbol_base self }
    {
        match self {
            SymbolRow::Special => Pair(0x11, 0x30),
            SymbolRow::Spanish => Pair(0x12, 0x20),
            SymbolRow::French => Pair(0x12, 0x30),
            SymbolRow::Portuguese => Pair(0x13, 0x20),
            SymbolRow::German => Pair(0x13, 0x30),
        }
    }
}

impl Symbol {
    // The row's first bytes, and the column.
    pub fn bytes(self) -> Pair
        ensures { result ≡ symbol_bytes self }
    {
        let base = self.row.base();
        Pair(base.0, base.1 + self.column.number())
    }
}

impl Command {
    // 14, then 20 and on, in the order of the commands.
    pub fn bytes(self) -> Pair
        ensures { result ≡ command_bytes self }
    {
        Pair(0x14, 0x20 + self.number())
    }
}

impl Tab {
    // 17, then 21, 22 or 23: 20 and the columns.
    pub fn bytes(self) -> Pair
        ensures { result ≡ tab_bytes self }
    {
        Pair(0x17, 0x20 + self.number())
    }
}

impl PreambleAddressCode {
    // The row's prefix, and in the second byte twice the style and the underline; channel, field and parity aside.
    pub fn bytes(self) -> Result<Pair, NoSuchRow>
        ensures { row_bytes_outcome result ≡ row_bytes self }
    {
        if 15 <= self.row {
            return Err(NoSuchRow);
        }
        let prefix = row_prefix(self.row);
        Ok(Pair(
            prefix.0,
            prefix.1 + 2 * self.ty.style() + self.underline as u8,
        ))
    }
}
