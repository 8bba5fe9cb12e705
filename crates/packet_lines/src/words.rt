// The words of the lines, put by a writer.
ghost use Rattle.std.specs.Prelude.{◌++◌, ◌≡◌};
ghost use Rattle.extended.specs.State.{contents_of, given_outcome, report_of};
ghost use Rattle.lines.specs.Put.{Puts};
ghost use Rattle.lines.specs.Words.{decimal, line};
ghost use Rattle.packet_lines.specs.Words.{character, characters, contents_words, hex_byte, hex_bytes, last_line, line_of, packet_data, packet_words};

use extended::{ExtendedError, Given, Packet};
use lines::put::{Writer, hex_digit};
use lines::words::put_refused_line;

// Two hex digits.
pub(crate) fn put_hex_byte(out: &mut Writer, byte: u8)
    ensures { Puts out.old (hex_byte byte) out.new }
{
    out.put(hex_digit(byte / 16));
    out.put(hex_digit(byte));
}

// Two hex digits a byte.
pub(crate) fn put_hex(out: &mut Writer, bytes: &[u8])
    ensures { Puts out.old (hex_bytes bytes.now) out.new }
{
    for &byte in bytes {
        put_hex_byte(out, byte);
    }
}

// A byte as a character: what is not 20 to 7E is a point.
pub(crate) fn shown(byte: u8) -> u8
    ensures { result ≡ character byte }
{
    match byte {
        0x20..=0x7E => byte,
        _ => b'.',
    }
}

// A character a byte.
pub(crate) fn put_shown(out: &mut Writer, bytes: &[u8])
    ensures { Puts out.old (characters bytes.now) out.new }
{
    for &byte in bytes {
        out.put(shown(byte));
    }
}

// Bytes as hex and as characters.
#[tactic(auto, using(lines::proofs::Puts::put_parts))]
pub(crate) fn put_bytes(out: &mut Writer, bytes: &[u8])
    ensures { Puts out.old (contents_words bytes.now) out.new }
{
    put_hex(out, bytes);
    out.put_word(b" \"");
    put_shown(out, bytes);
    out.put(b'"');
}

// The class, the type and the contents of a packet.
#[tactic(auto, using(lines::proofs::Puts::put_parts))]
pub(crate) fn put_packet(out: &mut Writer, packet: Packet)
    ensures { Puts out.old (packet_data packet.class packet.packet_type (contents_of packet.contents)) out.new }
{
    out.put(b'0' + packet.class.number());
    out.put(b' ');
    put_hex_byte(out, packet.packet_type);
    out.put(b' ');
    put_bytes(out, packet.contents.as_slice());
}

// The line of a packet that ended in the pair with this number.
pub(crate) fn put_packet_line(out: &mut Writer, number: u32, packet: Packet)
    ensures { Puts out.old (line number (packet_words packet.class packet.packet_type (contents_of packet.contents))) out.new }
{
    out.put_decimal(number);
    out.put_word(b" packet ");
    put_packet(out, packet);
    out.put(b'\n');
}

// The line of what a pair gave: of a packet, or of a refusal. An event has none.
pub(crate) fn put_line_of(
    out: &mut Writer,
    number: u32,
    answer: Result<Option<Given>, ExtendedError>,
)
    ensures { Puts out.old (line_of number (report_of (given_outcome answer))) out.new }
{
    match answer {
        Ok(Some(Given::Packet(packet))) => put_packet_line(out, number, packet),
        Ok(_) => {}
        Err(ExtendedError::InvalidParity) => put_refused_line(out, number, 1),
        Err(ExtendedError::NotOpen) => put_refused_line(out, number, 13),
        Err(ExtendedError::TooLong) => put_refused_line(out, number, 14),
        Err(ExtendedError::WrongSum) => put_refused_line(out, number, 15),
    }
}

// A word, and a number after it.
#[tactic(auto, using(lines::proofs::Puts::put_parts))]
pub(crate) fn put_count(out: &mut Writer, word: &[u8], number: u32)
    ensures { Puts out.old (word.now ++ decimal number) out.new }
{
    out.put_word(word);
    out.put_decimal(number);
}

pub(crate) fn put_last_line(out: &mut Writer, pairs: u32, packets: u32, refused: u32)
    ensures { Puts out.old (last_line pairs packets refused) out.new }
{
    put_count(out, b"pairs ", pairs);
    put_count(out, b" packets ", packets);
    put_count(out, b" refused ", refused);
    out.put(b'\n');
}
