// The reading mode: captions by a receiver of their own, and a packet of each class.
ghost use Rattle.std.specs.Prelude.{◌≡◌, None};
ghost use Rattle.code.specs.Outcome.{answer};
ghost use Rattle.extended.specs.State.{absent_packet, by_part_state, continued_state, ended_state, filled_state, fresh_state, opened_state, packet_at, place, received_outcome, set_captions, set_packet, started_state, step};
ghost use Rattle.extended.specs.Part.{part_of};

use crate::class::Class;
use crate::packet::{Packet, Unfinished};
use crate::part::{Part, part_of};
use code::Pair;
use code::parity::strip_parity;
use event::Cea608;
use receiver::Cea608State;

// What runs: captions, after a command; or extended data of a class, after a start or a continuation that is not refused.
// Captions are no absence of a class, so that this is no option.
#[derive(Clone, Copy)]
pub enum Running {
    Captions,
    Extended(Class),
}

// Any contents are a valid state. The packets are those of classes 1 to 7, in fixed memory.
#[derive(Clone, Copy)]
pub struct ExtendedState {
    pub captions: Cea608State,
    pub running: Running,
    pub packets: [Unfinished; 7],
}

// What a pair gives, where it gives anything: an event, or the packet that it finished.
#[derive(Clone, Copy)]
pub enum Given {
    Event(Cea608),
    Packet(Packet),
}

// Why a pair is refused: by 1, 13, 14 or 15.
#[derive(Clone, Copy, Debug, PartialEq, Eq)]
pub enum ExtendedError {
    InvalidParity,
    NotOpen,
    TooLong,
    WrongSum,
}

impl Class {
    // The place of its packet.
    pub(crate) fn place(self) -> usize
        ensures { result ≡ place self }
    {
        self as usize
    }
}

impl ExtendedState {
    // Nothing received yet.
    pub fn new() -> ExtendedState
        ensures { result ≡ fresh_state }
    {
        ExtendedState {
            captions: Cea608State::new(),
            running: Running::Captions,
            packets: [Unfinished::absent(); 7],
        }
    }

    // As if nothing had been received.
    pub fn reset(self) -> ExtendedState
        ensures { result ≡ fresh_state }
    {
        ExtendedState::new()
    }

    // The unfinished packet of a class.
    #[tactic(auto, unfolding(crate::specs::State::packet_at))]
    pub(crate) fn packet(self, class: Class) -> Unfinished
        ensures { result ≡ packet_at self.packets class }
    {
        let found = self.packets[class.place()];
        Unfinished {
            contents: found.contents.cut(),
            ..found
        }
    }

    pub(crate) fn with_packet(self, class: Class, packet: Unfinished) -> ExtendedState
        ensures { result ≡ set_packet self class packet }
    {
        let mut packets = self.packets;
        packets[class.place()] = packet;
        ExtendedState { packets, ..self }
    }

    // Without the packet of a class.
    pub(crate) fn without_packet(self, class: Class) -> ExtendedState
        ensures { result ≡ set_packet self class absent_packet }
    {
        self.with_packet(class, Unfinished::absent())
    }

    // With what the captions' receiver is after a pair.
    pub(crate) fn with_captions(self, captions: Cea608State) -> ExtendedState
        ensures { result ≡ set_captions self captions }
    {
        ExtendedState { captions, ..self }
    }

    // The class runs: its packet is open, and captions do not run.
    pub(crate) fn opened(self, class: Class) -> ExtendedState
        ensures { result ≡ opened_state self self.captions class }
    {
        ExtendedState {
            running: Running::Extended(class),
            ..self
        }
    }

    // A start.
    pub(crate) fn start(self, class: Class, packet_type: u8) -> ExtendedState
        ensures { (result, answer None) ≡ started_state self self.captions class packet_type }
    {
        self.opened(class)
            .with_packet(class, Unfinished::begun(packet_type))
    }

    // A continuation.
    pub(crate) fn go_on(
        self,
        captions: Cea608State,
        class: Class,
        packet_type: u8,
    ) -> (ExtendedState, Result<Option<Given>, ExtendedError>)
        ensures { received_outcome result ≡ continued_state self captions class packet_type }
    {
        if self.packet(class).packet_type == Some(packet_type) {
            return (self.with_captions(captions).opened(class), Ok(None));
        }
        (self, Err(ExtendedError::NotOpen))
    }

    // An end.
    pub(crate) fn end(
        self,
        captions: Cea608State,
        sum: u8,
    ) -> (ExtendedState, Result<Option<Given>, ExtendedError>)
        ensures { received_outcome result ≡ ended_state self captions self.running sum }
    {
        let Running::Extended(class) = self.running else {
            return (self, Err(ExtendedError::NotOpen));
        };
        let Unfinished {
            packet_type,
            contents,
        } = self.packet(class);
        let Some(packet_type) = packet_type else {
            return (self, Err(ExtendedError::NotOpen));
        };
        let packet = Packet {
            class,
            packet_type,
            contents,
        };
        let next = self.without_packet(class);
        if !packet.is_right_sum(sum) {
            return (next, Err(ExtendedError::WrongSum));
        }
        let given = Some(Given::Packet(packet));
        (next.with_captions(captions), Ok(given))
    }

    // Contents of the class that runs: a pair without parity.
    pub(crate) fn fill(
        self,
        captions: Cea608State,
        class: Class,
        pair: Pair,
    ) -> (ExtendedState, Result<Option<Given>, ExtendedError>)
        ensures { received_outcome result ≡ filled_state self captions class (packet_at self.packets class).packet_type (packet_at self.packets class).contents pair.0 pair.1 }
    {
        let packet = self.packet(class);
        let taken = self.with_captions(captions);
        if packet.packet_type.is_none() {
            return (taken, Ok(None));
        }
        if !packet.contents.has_room(pair) {
            return (self.without_packet(class), Err(ExtendedError::TooLong));
        }
        let contents = packet.contents.add(pair.0).add(pair.1);
        (
            taken.with_packet(class, Unfinished { contents, ..packet }),
            Ok(None),
        )
    }

    // Reads one pair. 1 and 13 change nothing; 14 and 15 drop their packet, and change nothing else.
    #[tactic(auto, using(crate::proofs::Decoding::even_pair, crate::proofs::Decoding::unheard_is_even, crate::proofs::Decoding::taken_pair))]
    pub fn decode(self, pair: Pair) -> (ExtendedState, Result<Option<Given>, ExtendedError>)
        ensures { received_outcome result ≡ step self pair }
    {
        match self.captions.decode(pair) {
            (captions, Ok(heard)) => {
                let data = Pair(strip_parity(pair.0), strip_parity(pair.1));
                self.take(captions, heard, data)
            }
            (_, Err(_)) => (self, Err(ExtendedError::InvalidParity)),
        }
    }

    // A pair of odd parity, here without it. The captions' receiver has taken it, and this is its answer.
    pub(crate) fn take(
        self,
        captions: Cea608State,
        heard: Option<Cea608>,
        pair: Pair,
    ) -> (ExtendedState, Result<Option<Given>, ExtendedError>)
        ensures { received_outcome result ≡ by_part_state self (answer heard, captions) (part_of pair.0) pair.0 pair.1 }
    {
        let taken = self.with_captions(captions);
        match part_of(pair.0) {
            Part::Command => {
                let next = ExtendedState {
                    running: Running::Captions,
                    ..taken
                };
                (next, Ok(heard.map(Given::Event)))
            }
            Part::Start(class) => (taken.start(class, pair.1), Ok(None)),
            Part::Continuation(class) => self.go_on(captions, class, pair.1),
            Part::End => self.end(captions, pair.1),
            Part::Other => match self.running {
                Running::Captions => (taken, Ok(heard.map(Given::Event))),
                Running::Extended(class) => self.fill(captions, class, pair),
            },
        }
    }
}
