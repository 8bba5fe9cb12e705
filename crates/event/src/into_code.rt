// An event turned into the codes that encode it.
ghost use Rattle.std.specs.Prelude.{◌≡◌};
ghost use Rattle.event.specs.IntoCode.{codes, codes_of, into_code_outcome, text_codes, preamble_codes, alone, command_alone, character_code};
ghost use Rattle.code.specs.Code.{from_char_outcome};
ghost use Rattle.event.specs.declared.into_code.IntoCodeError.TheVariants.{NoSuchRow as no_such_row, NoSuchTab as no_such_tab};

use crate::event::{Cea608, Text};
use code::{
    Channel, Code, Command, Control, ControlCode, Field, NoSuchCharacter, NoSuchRow, NoSuchTab,
    PreambleAddressCode,
};

// Why an event has no codes: `NoSuchRow` is refusal 3, `NoSuchTab` 4, and `NoSuchFirst` and `NoSuchSecond` are 5, for the
// first and for the second character.
#[derive(Clone, Copy, Debug, PartialEq, Eq)]
pub enum IntoCodeError {
    NoSuchRow,
    NoSuchTab,
    NoSuchFirst,
    NoSuchSecond,
}

impl From<NoSuchRow> for IntoCodeError {
    ghost from_gives = { λ _ e. e ≡ no_such_row };

    fn from(_e: NoSuchRow) -> IntoCodeError {
        IntoCodeError::NoSuchRow
    }
}

impl From<NoSuchTab> for IntoCodeError {
    ghost from_gives = { λ _ e. e ≡ no_such_tab };

    fn from(_e: NoSuchTab) -> IntoCodeError {
        IntoCodeError::NoSuchTab
    }
}

impl Cea608 {
    // The event's codes for a field: a control code and NUL, or two characters, NUL for one that is absent.
    #[tactic(auto, unfolding(crate::specs::IntoCode::codes_of))]
    pub fn into_code(self, field: Field) -> Result<(Code, Code), IntoCodeError>
        ensures { into_code_outcome result ≡ codes_of self field }
    {
        let to = Address {
            field,
            channel: self.channel(),
        };
        match self {
            Cea608::Text(text) => text.into_code(),
            Cea608::NewMode(_, mode) => Ok(to.command(mode.command())),
            Cea608::EraseDisplay(_) => Ok(to.command(Command::EraseDisplayedMemory)),
            Cea608::EraseNonDisplay(_) => Ok(to.command(Command::EraseNonDisplayedMemory)),
            Cea608::CarriageReturn(_) => Ok(to.command(Command::CarriageReturn)),
            Cea608::Backspace(_) => Ok(to.command(Command::Backspace)),
            Cea608::EndOfCaption(_) => Ok(to.command(Command::EndOfCaption)),
            Cea608::TabOffset(_, count) => Ok(to.control(Control::tab_offset(count)?)),
            Cea608::DeleteToEndOfRow(_) => Ok(to.command(Command::DeleteToEndOfRow)),
            Cea608::Preamble(_, preamble) => to.preamble(preamble),
            Cea608::MidRowChange(_, mid_row) => Ok(to.control(Control::MidRow(mid_row))),
        }
    }
}

// Where a control code goes.
#[derive(Clone, Copy)]
pub(crate) struct Address {
    pub field: Field,
    pub channel: Channel,
}

impl Address {
    // A control code and NUL.
    pub(crate) fn control(self, control: Control) -> (Code, Code)
        ensures { codes result.0 result.1 ≡ alone self.field self.channel control }
    {
        let code = ControlCode::new(self.field, self.channel, control);
        (Code::Control(code), Code::Nul)
    }

    // A command and NUL.
    pub(crate) fn command(self, command: Command) -> (Code, Code)
        ensures { codes result.0 result.1 ≡ command_alone self.field self.channel command }
    {
        self.control(Control::Command(command))
    }

    // A preamble of a row of 0 to 14, and NUL.
    pub(crate) fn preamble(
        self,
        preamble: PreambleAddressCode,
    ) -> Result<(Code, Code), IntoCodeError>
        ensures { into_code_outcome result ≡ preamble_codes self.field self.channel preamble }
    {
        let made = PreambleAddressCode::new(preamble.row, preamble.underline, preamble.ty)?;
        Ok(self.control(Control::Preamble(made)))
    }
}

impl Text {
    // The codes of the characters, the first looked up first.
    pub(crate) fn into_code(self) -> Result<(Code, Code), IntoCodeError>
        ensures { into_code_outcome result ≡ text_codes self }
    {
        let Ok(first) = character_code(self.char1, self.channel) else {
            return Err(IntoCodeError::NoSuchFirst);
        };
        let Ok(second) = character_code(self.char2, self.channel) else {
            return Err(IntoCodeError::NoSuchSecond);
        };
        Ok((first, second))
    }
}

// The code of a character, NUL for none.
pub(crate) fn character_code(
    character: Option<u32>,
    channel: Channel,
) -> Result<Code, NoSuchCharacter>
    ensures { from_char_outcome result ≡ character_code character channel }
{
    match character {
        Some(point) => Code::from_char(point, channel),
        None => Ok(Code::Nul),
    }
}
