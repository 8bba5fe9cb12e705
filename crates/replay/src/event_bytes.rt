// Events as the thirteen bytes of docs/TESTING.md, both ways. The numbers of the modes are written out here, as those of
// `from_bytes` are.
use crate::from_bytes::bytes_at;
use crate::to_bytes::padded;
use crate::{from_bytes, to_bytes};
use code::{Channel, PreambleAddressCode};
use event::{Cea608, Mode, Text};

pub(crate) fn mode(n: u8) -> Mode {
    match n {
        0 => Mode::PopOn,
        1 => Mode::PaintOn,
        2 => Mode::RollUp2,
        3 => Mode::RollUp3,
        _ => Mode::RollUp4,
    }
}

pub(crate) fn mode_number(m: Mode) -> u8 {
    m as u8
}

// A character, where the first byte is 1.
fn character(bytes: [u8; 5]) -> Option<u32> {
    let [there, a, b, c, d] = bytes;
    (there == 1).then_some(u32::from_le_bytes([a, b, c, d]))
}

fn text(bytes: [u8; 13], channel: Channel) -> Text {
    Text {
        needs_backspace: bytes[2] == 1,
        char1: character(bytes_at(&bytes, 3)),
        char2: character(bytes_at(&bytes, 8)),
        channel,
    }
}

pub(crate) fn event(bytes: [u8; 13]) -> Cea608 {
    let channel = from_bytes::channel(bytes[1]);
    match bytes[0] {
        0 => Cea608::Text(text(bytes, channel)),
        1 => Cea608::NewMode(channel, mode(bytes[2])),
        2 => Cea608::EraseDisplay(channel),
        3 => Cea608::EraseNonDisplay(channel),
        4 => Cea608::CarriageReturn(channel),
        5 => Cea608::Backspace(channel),
        6 => Cea608::EndOfCaption(channel),
        7 => Cea608::TabOffset(channel, bytes[2]),
        8 => Cea608::DeleteToEndOfRow(channel),
        9 => Cea608::Preamble(
            channel,
            PreambleAddressCode {
                row: bytes[2],
                underline: bytes[4] == 1,
                ty: from_bytes::style(bytes[3]),
            },
        ),
        _ => Cea608::MidRowChange(channel, from_bytes::mid_row(bytes[2], bytes[3] == 1)),
    }
}

// An answer with an event of at most three bytes of its own, from its third byte on.
fn short(kind: u8, channel: Channel, own: [u8; 3]) -> [u8; 16] {
    let [x, y, z] = own;
    padded(&[0, 1, kind, channel.id(), x, y, z])
}

fn text_answer(t: Text) -> [u8; 16] {
    let mut out = padded(&[0, 1, 0, t.channel.id(), t.needs_backspace as u8]);
    out[5..10].copy_from_slice(&to_bytes::character(t.char1));
    out[10..15].copy_from_slice(&to_bytes::character(t.char2));
    out
}

// An answer with the event: no refusal, a flag that there is one, and its bytes.
pub(crate) fn event_answer(e: Cea608) -> [u8; 16] {
    match e {
        Cea608::Text(t) => text_answer(t),
        Cea608::NewMode(channel, m) => short(1, channel, [mode_number(m), 0, 0]),
        Cea608::EraseDisplay(channel) => short(2, channel, [0; 3]),
        Cea608::EraseNonDisplay(channel) => short(3, channel, [0; 3]),
        Cea608::CarriageReturn(channel) => short(4, channel, [0; 3]),
        Cea608::Backspace(channel) => short(5, channel, [0; 3]),
        Cea608::EndOfCaption(channel) => short(6, channel, [0; 3]),
        Cea608::TabOffset(channel, count) => short(7, channel, [count, 0, 0]),
        Cea608::DeleteToEndOfRow(channel) => short(8, channel, [0; 3]),
        Cea608::Preamble(channel, p) => short(
            9,
            channel,
            [p.row(), p.code().style(), p.underline() as u8],
        ),
        Cea608::MidRowChange(channel, m) => {
            short(10, channel, [m.number(), m.underline() as u8, 0])
        }
    }
}
