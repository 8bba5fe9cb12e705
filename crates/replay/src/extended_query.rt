// The queries of extended data. They ask one state, which is kept from query to query.
ghost use Rattle.std.specs.Prelude.{◌<◌, ◌≤◌};

use crate::from_bytes::bytes_at;
use crate::refusal::{Answer, NOT_A_QUERY};
use crate::to_bytes::padded;
use crate::{event_bytes, from_bytes, to_bytes};
use code::Pair;
use extended::{Class, Contents, ExtendedState, Given, Packet, Running, Unfinished};
use receiver::{Cea608State, LastChannel};

// The state, and the contents of the packet that the last pair finished, or none.
#[derive(Clone, Copy)]
pub(crate) struct Kept {
    pub state: ExtendedState,
    pub contents: Contents,
}

const NO_CONTENTS: Contents = Contents {
    length: 0,
    bytes: [0; 32],
};

impl Kept {
    // Before the first query.
    pub(crate) fn new() -> Kept {
        Kept {
            state: ExtendedState::new(),
            contents: NO_CONTENTS,
        }
    }
}

pub(crate) fn answer(kept: &mut Kept, asked: [u8; 16]) -> Answer {
    match asked[0] {
        0x50 | 0x53..=0x58 => {
            set(&mut kept.state, asked);
            Ok([0u8; 16])
        }
        0x51 => decode(kept, Pair(asked[1], asked[2])),
        0x52 => Ok(part(&kept.contents, asked[1])),
        0x59 => Ok(types(&kept.state)),
        0x5A => Ok(lengths_and_captions(&kept.state)),
        0x5B => Ok(part(&kept.state.packets[place(asked[1])].contents, asked[2])),
        _ => Err(NOT_A_QUERY),
    }
}

fn decode(kept: &mut Kept, pair: Pair) -> Answer {
    let (state, given) = kept.state.decode(pair);
    *kept = Kept {
        state,
        contents: NO_CONTENTS,
    };
    match given? {
        None => Ok([0u8; 16]),
        Some(Given::Event(e)) => Ok(event_bytes::event_answer(e)),
        Some(Given::Packet(packet)) => {
            kept.contents = packet.contents;
            Ok(packet_answer(packet))
        }
    }
}

fn packet_answer(packet: Packet) -> [u8; 16] {
    padded(&[
        0,
        2,
        packet.class.number(),
        packet.packet_type,
        count(&packet.contents),
    ])
}

// Sets a piece of the state, or makes it anew.
fn set(state: &mut ExtendedState, asked: [u8; 16]) {
    match asked[0] {
        0x50 => *state = state.reset(),
        0x53 => *state = ExtendedState::new(),
        0x54 => state.running = running(asked[1]),
        0x55..=0x57 => set_packet(&mut state.packets[place(asked[1])], asked),
        _ => state.captions = captions(asked),
    }
}

// The class of a number.
fn class(number: u8) -> Class {
    match number {
        1 => Class::Current,
        2 => Class::Future,
        3 => Class::ChannelInformation,
        4 => Class::Miscellaneous,
        5 => Class::PublicService,
        6 => Class::Reserved,
        _ => Class::Private,
    }
}

fn running(number: u8) -> Running {
    match number {
        0 => Running::Captions,
        _ => Running::Extended(class(number)),
    }
}

// The place of a class's packet.
fn place(number: u8) -> usize
    ensures { result < 7 }
{
    (number as usize + 6) % 7
}

// Sets a packet's type, its length or a part of its contents.
fn set_packet(packet: &mut Unfinished, asked: [u8; 16]) {
    match asked[0] {
        0x55 => packet.packet_type = (asked[2] == 1).then_some(asked[3]),
        0x56 => packet.contents.length = asked[2],
        _ => set_part(&mut packet.contents.bytes, asked[2] as usize, asked),
    }
}

// Sets thirteen bytes of the contents, as many of them as there are places for.
fn set_part(bytes: &mut [u8; 32], at: usize, asked: [u8; 16]) {
    for (to, byte) in bytes.iter_mut().skip(at).zip(&asked[3..]) {
        *to = *byte;
    }
}

fn captions(asked: [u8; 16]) -> Cea608State {
    Cea608State {
        last_data: from_bytes::maybe_pair(bytes_at(&asked, 1)),
        last_channel: last_channel(asked[4]),
        last_received_field: from_bytes::field(asked[5]),
    }
}

fn last_channel(number: u8) -> LastChannel {
    match number {
        0 => LastChannel::Absent,
        _ => LastChannel::Known(from_bytes::channel(number)),
    }
}

// How many contents there are.
fn count(contents: &Contents) -> u8
    ensures { result ≤ 32 }
{
    contents.length.min(32)
}

// How many contents there are from a place on, at most fourteen, and these.
fn part(contents: &Contents, at: u8) -> [u8; 16] {
    let bytes = contents.as_slice();
    let start = bytes.len().min(at as usize);
    let end = bytes.len().min(start + 14);
    let shown = &bytes[start..end];
    let mut out = padded(&[shown.len() as u8]);
    out[1..=shown.len()].copy_from_slice(shown);
    out
}

fn running_number(running: Running) -> u8 {
    match running {
        Running::Captions => 0,
        Running::Extended(class) => class.number(),
    }
}

// What runs, then whether each class has a packet, and its type.
fn types(state: &ExtendedState) -> [u8; 16] {
    let mut out = padded(&[running_number(state.running)]);
    for (i, packet) in state.packets.iter().enumerate() {
        out[1 + 2 * i] = packet.packet_type.is_some() as u8;
        out[2 + 2 * i] = packet.packet_type.unwrap_or(0);
    }
    out
}

fn channel_number(last: LastChannel) -> u8 {
    match last {
        LastChannel::Absent => 0,
        LastChannel::Known(channel) => channel.id(),
    }
}

// The length of each class's contents as it is stored, then the captions' receiver.
fn lengths_and_captions(state: &ExtendedState) -> [u8; 16] {
    let mut out = [0u8; 16];
    for (to, packet) in out.iter_mut().zip(&state.packets) {
        *to = packet.contents.length;
    }
    out[7..10].copy_from_slice(&to_bytes::maybe_pair(state.captions.last_data));
    out[10] = channel_number(state.captions.last_channel);
    out[11] = to_bytes::field(state.captions.last_received_field);
    out
}
