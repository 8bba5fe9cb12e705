// A packet that is not finished: its type, and its contents so far.
ghost use Rattle.std.specs.Prelude.{true, ◌≡◌, ◌%◌, length};
ghost use Rattle.extended.specs.Packet.{content_bytes, is_right_sum, sum_of, unless_filler};
ghost use Rattle.extended.specs.State.{absent_packet, added_all, begun, contents_of, cut, has_room, no_contents};

use crate::class::Class;
use code::Pair;

// A packet has at most so many content bytes.
pub(crate) const MOST_CONTENTS: usize = 32;

// The first `length` bytes are the contents, in fixed memory; a length above 32 means all 32.
#[derive(Clone, Copy)]
pub struct Contents {
    pub length: u8,
    pub bytes: [u8; MOST_CONTENTS],
}

// The type is the second byte of the packet's start; where it is absent there is no packet. What stands beside it is a part of
// the state all the same, which `replay` shows.
#[derive(Clone, Copy)]
pub struct Unfinished {
    pub packet_type: Option<u8>,
    pub contents: Contents,
}

// How many content bytes a byte is: filler is none.
pub(crate) fn count_of(byte: u8) -> usize
    ensures { result ≡ length (unless_filler byte) }
{
    (byte != 0) as usize
}

impl Contents {
    // None yet.
    pub(crate) fn new() -> Contents
        ensures { result ≡ no_contents }
    {
        Contents {
            length: 0,
            bytes: [0; MOST_CONTENTS],
        }
    }

    // The bytes that are contents.
    pub fn as_slice(&self) -> &[u8]
        ensures { result.now ≡ contents_of self.now }
    {
        &self.bytes[..MOST_CONTENTS.min(self.length as usize)]
    }

    // The same contents, with a length of at most 32.
    pub(crate) fn cut(self) -> Contents
        ensures { result ≡ cut self }
    {
        Contents {
            length: self.as_slice().len() as u8,
            ..self
        }
    }

    // Whether there is room for the content bytes of a pair without parity.
    pub(crate) fn has_room(self, pair: Pair) -> bool
        ensures { result ≡ has_room self (content_bytes pair.0 pair.1) }
    {
        self.length as usize + count_of(pair.0) + count_of(pair.1) <= MOST_CONTENTS
    }

    // With one byte more, unless it is filler.
    pub(crate) fn add(self, byte: u8) -> Contents
        requires { has_room self (unless_filler byte) ≡ true }
        ensures { result ≡ added_all self (unless_filler byte) }
    {
        if byte == 0 {
            return self;
        }
        let mut bytes = self.bytes;
        bytes[self.length as usize] = byte;
        Contents {
            length: self.length + 1,
            bytes,
        }
    }

    // The sum of the contents, modulo 128.
    pub(crate) fn sum(self) -> u8
        ensures { result ≡ sum_of (contents_of self) % 128 }
    {
        self.as_slice()
            .iter()
            .fold(0, |sum: u8, byte| sum.wrapping_add(*byte) % 128)
    }
}

impl Unfinished {
    // No packet.
    pub(crate) fn absent() -> Unfinished
        ensures { result ≡ absent_packet }
    {
        Unfinished {
            packet_type: None,
            contents: Contents::new(),
        }
    }

    // A packet of which the start was received.
    pub(crate) fn begun(packet_type: u8) -> Unfinished
        ensures { result ≡ begun packet_type }
    {
        Unfinished {
            packet_type: Some(packet_type),
            contents: Contents::new(),
        }
    }
}

// A packet that is finished.
#[derive(Clone, Copy)]
pub struct Packet {
    pub class: Class,
    pub packet_type: u8,
    pub contents: Contents,
}

impl Packet {
    // Whether its bytes and this sum add up to 0 modulo 128.
    pub(crate) fn is_right_sum(self, sum: u8) -> bool
        ensures { result ≡ is_right_sum self.class self.packet_type (contents_of self.contents) sum }
    {
        let all = self.class.start_byte() as u32
            + self.packet_type as u32
            + self.contents.sum() as u32
            + 0x0F
            + sum as u32;
        all % 128 == 0
    }
}
