// Control codes: what their two bytes mean, channel and field aside.
ghost use Rattle.std.specs.Prelude.{◌≡◌, ◌<◌};
ghost use Rattle.code.specs.Number.{numbered};
ghost use Rattle.code.specs.Control.{command_at, command_number, tab_number, tab_offset, tab_offset_outcome, names_field, control_code, channel_in, field_in, control_in};

use crate::channel::{Channel, Field};
use crate::midrow::MidRow;
use crate::number::NoSuchNumber;
use crate::preamble::PreambleAddressCode;
use crate::symbol::Symbol;

// The miscellaneous control codes 14 20 to 14 2F, in their order.
#[derive(Clone, Copy, Debug, PartialEq, Eq)]
pub enum Command {
    // Pop-on: what follows is loaded out of sight.
    ResumeCaptionLoading,
    // Deletes the character before the cursor.
    Backspace,
    // Reserved.
    AlarmOff,
    // Reserved.
    AlarmOn,
    // Deletes the row from the cursor on.
    DeleteToEndOfRow,
    // Roll-up captions of two rows.
    RollUp2,
    // Roll-up captions of three rows.
    RollUp3,
    // Roll-up captions of four rows.
    RollUp4,
    // What follows flashes; the code takes a column.
    FlashOn,
    // Paint-on: what follows is shown as received.
    ResumeDirectionCaptioning,
    // Text mode, from an empty screen.
    TextRestart,
    // Text mode, from where it was left.
    ResumeTextDisplay,
    // Clears the captions on the screen.
    EraseDisplayedMemory,
    // A roll-up window scrolls by one row.
    CarriageReturn,
    // Clears the captions being loaded.
    EraseNonDisplayedMemory,
    // Pop-on: swaps the loaded captions with those on the screen.
    EndOfCaption,
}

// The tab offsets 17 21 to 17 23.
#[derive(Clone, Copy, Debug, PartialEq, Eq)]
pub enum Tab {
    TabOffset1,
    TabOffset2,
    TabOffset3,
}

#[derive(Clone, Copy, Debug, PartialEq, Eq)]
pub enum Control {
    MidRow(MidRow),
    Symbol(Symbol),
    Command(Command),
    Tab(Tab),
    Preamble(PreambleAddressCode),
    // Two stripped bytes that have no meaning here, with the channel bit.
    Unknown(u8, u8),
}

// Refusal 4: no tab moves so many columns.
#[derive(Clone, Copy, Debug, PartialEq, Eq)]
pub struct NoSuchTab;

#[derive(Clone, Copy, Debug, PartialEq, Eq)]
pub struct ControlCode {
    // The field that it names. In reading, only 14 and 15 before 20 to 2F name one.
    pub field: Option<Field>,
    pub channel: Channel,
    pub control: Control,
}

// Whether a second byte is one of 20 to 2F, before which 14 and 15 name a field.
pub(crate) fn names_field(second: u8) -> bool
    ensures { result ≡ names_field second }
{
    second / 16 == 2
}

impl TryFrom<u8> for Command {
    type Error = NoSuchNumber;

    ghost try_from_gives = { λ n r. r ≡ numbered 16 command_at n };

    // The command of a number of 0 to 15.
    fn try_from(n: u8) -> Result<Command, NoSuchNumber> {
        match n {
            0 => Ok(Command::ResumeCaptionLoading),
            1 => Ok(Command::Backspace),
            2 => Ok(Command::AlarmOff),
            3 => Ok(Command::AlarmOn),
            4 => Ok(Command::DeleteToEndOfRow),
            5 => Ok(Command::RollUp2),
            6 => Ok(Command::RollUp3),
            7 => Ok(Command::RollUp4),
            8 => Ok(Command::FlashOn),
            9 => Ok(Command::ResumeDirectionCaptioning),
            10 => Ok(Command::TextRestart),
            11 => Ok(Command::ResumeTextDisplay),
            12 => Ok(Command::EraseDisplayedMemory),
            13 => Ok(Command::CarriageReturn),
            14 => Ok(Command::EraseNonDisplayedMemory),
            15 => Ok(Command::EndOfCaption),
            _ => Err(NoSuchNumber),
        }
    }
}

impl Command {
    // The command's number, from 0 for 14 20.
    pub fn number(self) -> u8
        ensures { result ≡ command_number self }
    {
        self as u8
    }
}

impl Tab {
    // The columns that the cursor moves, 1 to 3.
    pub fn number(self) -> u8
        ensures { result ≡ tab_number self }
    {
        self as u8 + 1
    }
}

impl Control {
    // The tab offset of 1, 2 or 3 columns.
    pub fn tab_offset(offset: u8) -> Result<Control, NoSuchTab>
        ensures { tab_offset_outcome result ≡ tab_offset offset }
    {
        match offset {
            1 => Ok(Control::Tab(Tab::TabOffset1)),
            2 => Ok(Control::Tab(Tab::TabOffset2)),
            3 => Ok(Control::Tab(Tab::TabOffset3)),
            _ => Err(NoSuchTab),
        }
    }
}

impl ControlCode {
    // A control code for a field and a channel.
    pub fn new(field: Field, channel: Channel, control: Control) -> ControlCode
        ensures { result ≡ control_code field channel control }
    {
        ControlCode {
            field: Some(field),
            channel,
            control,
        }
    }

    // The channel that it is for.
    pub fn channel(self) -> Channel
        ensures { result ≡ channel_in self }
    {
        self.channel
    }

    // The field that it names, or none.
    pub fn field(self) -> Option<Field>
        ensures { result ≡ field_in self }
    {
        self.field
    }

    // What it means.
    pub fn code(self) -> Control
        ensures { result ≡ control_in self }
    {
        self.control
    }
}
