// The events that codes encode.
ghost use Rattle.std.specs.Prelude.{◌≡◌};
ghost use Rattle.event.specs.Mode.{mode_of};
ghost use Rattle.receiver.specs.Heard.{event_of, command_event, new_mode, symbol_event, text_event};

use code::{Channel, Code, Command, Control, ControlCode, Symbol};
use event::{Cea608, Mode, Text};

// The event of a control code, if it has one.
#[tactic(auto, unfolding(crate::specs::Heard::event_of))]
pub(crate) fn event_of(code: ControlCode) -> Option<Cea608>
    ensures { result ≡ event_of code }
{
    let channel = code.channel;
    match code.control {
        Control::MidRow(mid_row) => Some(Cea608::MidRowChange(channel, mid_row)),
        Control::Symbol(symbol) => symbol_event(channel, symbol),
        Control::Command(command) => command_event(channel, command),
        Control::Tab(tab) => Some(Cea608::TabOffset(channel, tab.number())),
        Control::Preamble(preamble) => Some(Cea608::Preamble(channel, preamble)),
        Control::Unknown(_, _) => None,
    }
}

// A special or extended character; the transparent space gives nothing.
pub(crate) fn symbol_event(channel: Channel, symbol: Symbol) -> Option<Cea608>
    ensures { result ≡ symbol_event channel symbol }
{
    let control = Control::Symbol(symbol);
    let character = control.char()?;
    Some(Cea608::Text(Text {
        needs_backspace: control.needs_backspace(),
        char1: Some(character),
        char2: None,
        channel,
    }))
}

// A miscellaneous command. Six have an event of their own; any other begins a mode or, as alarms, flash and the text
// commands, gives nothing.
pub(crate) fn command_event(channel: Channel, command: Command) -> Option<Cea608>
    ensures { result ≡ command_event channel command }
{
    match command {
        Command::Backspace => Some(Cea608::Backspace(channel)),
        Command::DeleteToEndOfRow => Some(Cea608::DeleteToEndOfRow(channel)),
        Command::EraseDisplayedMemory => Some(Cea608::EraseDisplay(channel)),
        Command::CarriageReturn => Some(Cea608::CarriageReturn(channel)),
        Command::EraseNonDisplayedMemory => Some(Cea608::EraseNonDisplay(channel)),
        Command::EndOfCaption => Some(Cea608::EndOfCaption(channel)),
        _ => mode_event(channel, command),
    }
}

// The mode that a command begins, if it begins one.
fn mode_event(channel: Channel, command: Command) -> Option<Cea608>
    ensures { result ≡ new_mode channel (mode_of command) }
{
    let mode = Mode::from_command(command)?;
    Some(Cea608::NewMode(channel, mode))
}

// Two single codes as text for a channel, where either has a character.
#[tactic(auto, unfolding(crate::specs::Heard::text_event))]
pub(crate) fn text_event(channel: Channel, first: Code, second: Code) -> Option<Cea608>
    ensures { result ≡ text_event channel first second }
{
    let char1 = first.char();
    let char2 = second.char();
    if char1.is_none() && char2.is_none() {
        return None;
    }
    Some(Cea608::Text(Text {
        needs_backspace: false,
        char1,
        char2,
        channel,
    }))
}
