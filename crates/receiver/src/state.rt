// The receiver: what it remembers of the pairs of one field, and what a pair does to it.
ghost use Rattle.std.specs.Prelude.{◌≡◌};
ghost use Rattle.receiver.specs.Receiver.{fresh, step, decoded_outcome, heard_command, heard_text, last_field, text_for};

use crate::heard::{event_of, text_event};
use code::{Channel, Code, ControlCode, Field, InvalidParity, Pair};
use event::Cea608;

// The channel that text goes to, once a command has named one. An enum of its own, as 01 names the form (docs/DECISIONS.md).
#[derive(Clone, Copy)]
pub enum LastChannel {
    Absent,
    Known(Channel),
}

// Any contents are a valid state.
#[derive(Clone, Copy)]
pub struct Cea608State {
    // The last pair that was not refused, text or command, unless it was a repeat.
    pub last_data: Option<Pair>,
    pub last_channel: LastChannel,
    // The field that a command named last.
    pub last_received_field: Option<Field>,
}

impl Cea608State {
    // Nothing received yet.
    pub fn new() -> Cea608State
        ensures { result ≡ fresh }
    {
        Cea608State {
            last_data: None,
            last_channel: LastChannel::Absent,
            last_received_field: None,
        }
    }

    // Reads one pair. Gives the state after it, and an event, nothing, or refusal 1.
    #[tactic(auto, unfolding(crate::specs::Receiver::step))]
    pub fn decode(self, pair: Pair) -> (Cea608State, Result<Option<Cea608>, InvalidParity>)
        ensures { decoded_outcome result ≡ step self pair }
    {
        let Ok((first, second)) = Code::from_data(pair) else {
            return (self, Err(InvalidParity));
        };
        let Code::Control(code) = first else {
            return self.text(pair, first, second);
        };
        self.command(pair, code)
    }

    // A command: skipped where it repeats the last pair; then no repeat is awaited.
    pub(crate) fn command(
        self,
        pair: Pair,
        code: ControlCode,
    ) -> (Cea608State, Result<Option<Cea608>, InvalidParity>)
        ensures { decoded_outcome result ≡ heard_command self pair code }
    {
        if self.last_data == Some(pair) {
            let next = Cea608State {
                last_data: None,
                ..self
            };
            return (next, Ok(None));
        }
        let next = Cea608State {
            last_data: Some(pair),
            last_channel: LastChannel::Known(code.channel),
            last_received_field: code.field.or(self.last_received_field),
        };
        (next, Ok(event_of(code)))
    }

    // Text for the last channel, or nothing while there is none.
    pub(crate) fn text(
        self,
        pair: Pair,
        first: Code,
        second: Code,
    ) -> (Cea608State, Result<Option<Cea608>, InvalidParity>)
        ensures { decoded_outcome result ≡ heard_text self pair first second }
    {
        let next = Cea608State {
            last_data: Some(pair),
            ..self
        };
        (next, Ok(self.last_channel.text(first, second)))
    }

    // The field that a command named last, by which swapped fields can be detected.
    pub fn last_received_field(self) -> Option<Field>
        ensures { result ≡ last_field self }
    {
        self.last_received_field
    }

    // As if nothing had been received.
    pub fn reset(self) -> Cea608State
        ensures { result ≡ fresh }
    {
        Cea608State::new()
    }
}

impl LastChannel {
    // Two single codes as text, once a channel is known.
    pub(crate) fn text(self, first: Code, second: Code) -> Option<Cea608>
        ensures { result ≡ text_for self first second }
    {
        let LastChannel::Known(channel) = self else {
            return None;
        };
        text_event(channel, first, second)
    }
}
