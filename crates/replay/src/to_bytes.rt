// Values of the layers as the bytes of an answer.
ghost use Rattle.std.specs.Prelude.{◌≤◌, length};

use code::{Code, Control, Field, Pair, PreambleType};

// An answer that begins with these bytes; the others are 0.
pub(crate) fn padded(bytes: &[u8]) -> [u8; 16]
    requires { length bytes.now ≤ 16 }
{
    let mut out = [0u8; 16];
    out[..bytes.len()].copy_from_slice(bytes);
    out
}

// The field's number, or 0 for none.
pub(crate) fn field(field: Option<Field>) -> u8 {
    field.map_or(0, Field::id)
}

// A control's kind, x, y and z.
pub(crate) fn control(control: Control) -> [u8; 4] {
    match control {
        Control::MidRow(m) => [3, m.number(), m.underline() as u8, 0],
        Control::Symbol(s) => [4, s.place(), 0, 0],
        Control::Command(c) => [5, c.number(), 0, 0],
        Control::Tab(t) => [6, t.number(), 0, 0],
        Control::Preamble(p) => [7, p.row(), p.code().style(), p.underline() as u8],
        Control::Unknown(a, b) => [8, a, b, 0],
    }
}

// A code's kind, field, channel, x, y and z.
pub(crate) fn code(code: Code) -> [u8; 6] {
    match code {
        Code::Nul => [0; 6],
        Code::Control(c) => {
            let [kind, x, y, z] = control(c.code());
            [kind, field(c.field()), c.channel().id(), x, y, z]
        }
        Code::Letter(l) => [1, 0, 0, l.place(), 0, 0],
        Code::Unknown(b) => [2, 0, 0, b, 0, 0],
    }
}

// An answer with two codes, from its second byte on.
pub(crate) fn codes(codes: (Code, Code)) -> [u8; 16] {
    let (first, second) = codes;
    let mut out = [0u8; 16];
    out[1..7].copy_from_slice(&code(first));
    out[7..13].copy_from_slice(&code(second));
    out
}

// Style, colour, whether there is an indent, and the indent.
pub(crate) fn preamble_type(t: PreambleType) -> [u8; 4] {
    let indent = t.indent();
    [
        t.style(),
        t.color().number(),
        indent.is_some() as u8,
        indent.unwrap_or(0),
    ]
}

// Whether there is a character, and the four bytes of its code point.
pub(crate) fn character(character: Option<u32>) -> [u8; 5] {
    let [a, b, c, d] = character.unwrap_or(0).to_le_bytes();
    [character.is_some() as u8, a, b, c, d]
}

// Whether there is a pair, and the pair.
pub(crate) fn maybe_pair(pair: Option<Pair>) -> [u8; 3] {
    let Pair(first, second) = pair.unwrap_or(Pair(0, 0));
    [pair.is_some() as u8, first, second]
}
