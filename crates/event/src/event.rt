// The events, as the crate names them.
ghost use Rattle.std.specs.Prelude.{◌≡◌};
ghost use Rattle.event.specs.Event.{channel_of_event};

use crate::mode::Mode;
use code::{Channel, MidRow, PreambleAddressCode};

// One or two characters for a channel.
#[derive(Clone, Copy, Debug, PartialEq, Eq)]
pub struct Text {
    // Whether the characters take the place of the one before them.
    pub needs_backspace: bool,
    // The characters' code points.
    pub char1: Option<u32>,
    pub char2: Option<u32>,
    pub channel: Channel,
}

#[derive(Clone, Copy, Debug, PartialEq, Eq)]
pub enum Cea608 {
    // Characters.
    Text(Text),
    // A presentation mode begins, or is repeated.
    NewMode(Channel, Mode),
    // The captions on the screen are cleared.
    EraseDisplay(Channel),
    // The captions being loaded are cleared.
    EraseNonDisplay(Channel),
    // A roll-up window scrolls by one row.
    CarriageReturn(Channel),
    // The character before the cursor is deleted.
    Backspace(Channel),
    // The loaded captions are shown.
    EndOfCaption(Channel),
    // The cursor moves right by this many columns.
    TabOffset(Channel, u8),
    // The row is deleted from the cursor on.
    DeleteToEndOfRow(Channel),
    // The cursor goes to a row, and what follows has its style.
    Preamble(Channel, PreambleAddressCode),
    // What follows in the row has another colour, italics or underline.
    MidRowChange(Channel, MidRow),
}

impl Cea608 {
    // The channel that the event is for.
    pub fn channel(self) -> Channel
        ensures { result ≡ channel_of_event self }
    {
        match self {
            Cea608::Text(text) => text.channel,
            Cea608::NewMode(channel, _)
            | Cea608::EraseDisplay(channel)
            | Cea608::EraseNonDisplay(channel)
            | Cea608::CarriageReturn(channel)
            | Cea608::Backspace(channel)
            | Cea608::EndOfCaption(channel)
            | Cea608::TabOffset(channel, _)
            | Cea608::DeleteToEndOfRow(channel)
            | Cea608::Preamble(channel, _)
            | Cea608::MidRowChange(channel, _) => channel,
        }
    }
}
