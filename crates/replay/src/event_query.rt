// The queries of the event layer.
use crate::from_bytes::bytes_at;
use crate::refusal::{Answer, NOT_A_QUERY};
use crate::to_bytes::padded;
use crate::{event_bytes, from_bytes, to_bytes};
use code::{Channel, Field};
use event::{Id, Mode};

pub(crate) fn answer(asked: [u8; 16]) -> Answer {
    match asked[0] {
        0x20 => into_code(asked),
        0x21 => Ok(padded(&[event_bytes::event(bytes_at(&asked, 1)).channel().id()])),
        0x22 => Ok(mode(event_bytes::mode(asked[1]))),
        0x23 => Ok(from_command(asked[1])),
        0x24 => from_value(asked[1]),
        0x25 => Ok(id(Field(asked[1] == 1), from_bytes::channel(asked[2]))),
        _ => Err(NOT_A_QUERY),
    }
}

fn into_code(asked: [u8; 16]) -> Answer {
    let event = event_bytes::event(bytes_at(&asked, 2));
    let codes = event.into_code(Field(asked[1] == 1))?;
    Ok(to_bytes::codes(codes))
}

fn mode(m: Mode) -> [u8; 16] {
    let rows = m.rollup_rows();
    padded(&[
        m.is_rollup() as u8,
        rows.is_some() as u8,
        rows.unwrap_or(0),
        m.command().number(),
    ])
}

fn from_command(n: u8) -> [u8; 16] {
    match Mode::from_command(from_bytes::command(n)) {
        Some(m) => padded(&[1, event_bytes::mode_number(m)]),
        None => [0u8; 16],
    }
}

fn id_number(i: Id) -> u8 {
    i as u8 + 1
}

fn from_value(byte: u8) -> Answer {
    let i = Id::from_value(byte.cast_signed())?;
    Ok(padded(&[0, id_number(i)]))
}

fn id(field: Field, channel: Channel) -> [u8; 16] {
    let i = Id::from_caption_field_channel(field, channel);
    padded(&[id_number(i), i.field().id(), i.channel().id()])
}
