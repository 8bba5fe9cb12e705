// The queries of the code layer.
use crate::from_bytes::bytes_at;
use crate::refusal::{Answer, NOT_A_QUERY};
use crate::to_bytes::padded;
use crate::{from_bytes, to_bytes};
use code::{
    Channel, Code, Color, Control, ControlCode, Field, MidRow, Pair, PreambleAddressCode,
    PreambleType, parity,
};

pub(crate) fn answer(asked: [u8; 16]) -> Answer {
    match asked[0] {
        0x01 => Ok(to_bytes::codes(Code::from_data(Pair(asked[1], asked[2]))?)),
        0x02..=0x05 | 0x10 => of_code(asked[0], from_bytes::code(bytes_at(&asked, 1))),
        0x06 => from_char(asked),
        0x07 => Ok(mid_row(MidRow::new_color(from_bytes::color(asked[1]), asked[2] == 1))),
        0x08 => Ok(mid_row(MidRow::new_italics(asked[1] == 1))),
        0x09 => from_indent(asked[1]),
        0x0A => Ok(from_color(asked[1])),
        0x0B => preamble(asked[1], asked[2] == 1, asked[3]),
        0x0C => Ok(control_code(asked)),
        0x0D => tab_offset(asked[1]),
        0x0E => Ok(ids()),
        0x0F => Ok(byte_parity(asked[1])),
        _ => Err(NOT_A_QUERY),
    }
}

// What is asked of a code.
fn of_code(kind: u8, code: Code) -> Answer {
    match kind {
        0x02 => write(code),
        0x03 => Ok(padded(&to_bytes::character(code.char()))),
        0x04 => Ok(padded(&[(code.byte_len() % 256) as u8])),
        0x05 => Ok(padded(&[code.needs_backspace() as u8])),
        _ => domain(code),
    }
}

fn write(code: Code) -> Answer {
    let (pair, length) = code.write()?;
    Ok(padded(&[0, pair.0, pair.1, (length % 256) as u8]))
}

fn from_char(asked: [u8; 16]) -> Answer {
    let point = u32::from_le_bytes(bytes_at(&asked, 1));
    let code = Code::from_char(point, from_bytes::channel(asked[5]))?;
    Ok(to_bytes::codes((code, Code::Nul)))
}

fn mid_row(m: MidRow) -> [u8; 16] {
    padded(&[
        m.color().map_or(7, Color::number),
        m.underline() as u8,
        m.italics() as u8,
        m.number(),
    ])
}

fn from_indent(indent: u8) -> Answer {
    let ty = PreambleType::from_indent(indent)?;
    let [style, color, there, columns] = to_bytes::preamble_type(ty);
    Ok(padded(&[0, style, color, there, columns]))
}

fn from_color(color: u8) -> [u8; 16] {
    padded(&to_bytes::preamble_type(PreambleType::from_color(from_bytes::color(color))))
}

fn preamble(row: u8, underline: bool, style: u8) -> Answer {
    let p = PreambleAddressCode::new(row, underline, from_bytes::style(style))?;
    Ok(padded(&[
        0,
        p.row(),
        p.column(),
        p.underline() as u8,
        p.code().style(),
        p.italics() as u8,
        p.color().number(),
    ]))
}

fn control_code(asked: [u8; 16]) -> [u8; 16] {
    let control = from_bytes::control(asked[3], asked[4], asked[5], asked[6]);
    let made = ControlCode::new(Field(asked[1] == 1), from_bytes::channel(asked[2]), control);
    let [kind, x, y, z] = to_bytes::control(made.code());
    padded(&[
        to_bytes::field(made.field()),
        made.channel().id(),
        kind,
        x,
        y,
        z,
    ])
}

fn tab_offset(count: u8) -> Answer {
    let [_, x, _, _] = to_bytes::control(Control::tab_offset(count)?);
    Ok(padded(&[0, x]))
}

fn ids() -> [u8; 16] {
    padded(&[
        Channel::ONE.id(),
        Channel::TWO.id(),
        Field::ONE.id(),
        Field::TWO.id(),
    ])
}

fn byte_parity(byte: u8) -> [u8; 16] {
    let stripped = parity::strip_parity(byte);
    padded(&[
        parity::check_odd_parity(byte) as u8,
        stripped,
        parity::add_parity(stripped),
    ])
}

fn domain(code: Code) -> Answer {
    code.domain()?;
    Ok([0u8; 16])
}
