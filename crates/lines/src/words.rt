// The words of the listing's lines, put by a writer.
ghost use Rattle.std.specs.Prelude.{◌∷◌, ◌≡◌, ◌<◌};
ghost use Rattle.event.specs.declared.event.Cea608.TheVariants as event;
ghost use Rattle.lines.specs.Line.{line_length};
ghost use Rattle.lines.specs.Put.{HasRoom, Puts};
ghost use Rattle.lines.specs.Words.{channel_digit, character_word, event_words, flag_digit, last_line, line, line_of, mode_word, refused_words, word_for};
ghost use Rattle.receiver.specs.Heard.{heard_outcome};

use crate::put::{Writer, hex_digit};
use code::{Channel, InvalidParity, MidRow, PreambleAddressCode};
use event::{Cea608, Mode, Text};

pub(crate) fn channel_digit(channel: Channel) -> u8
    ensures { result ≡ channel_digit channel }
{
    b'0' + channel.id()
}

pub(crate) fn flag_digit(flag: bool) -> u8
    ensures { result ≡ flag_digit flag }
{
    if flag { b'1' } else { b'0' }
}

pub(crate) fn put_mode(out: &mut Writer, mode: Mode)
    ensures { Puts out.old (mode_word mode) out.new }
{
    match mode {
        Mode::PopOn => out.put_word(b"pop"),
        Mode::PaintOn => out.put_word(b"paint"),
        Mode::RollUp2 => out.put_word(b"roll2"),
        Mode::RollUp3 => out.put_word(b"roll3"),
        Mode::RollUp4 => out.put_word(b"roll4"),
    }
}

// A word with its space, and the channel that it is for.
#[tactic(auto, using(crate::proofs::Puts::put_parts))]
pub(crate) fn put_for(out: &mut Writer, word: &[u8], channel: Channel)
    ensures { Puts out.old (word_for word.now channel) out.new }
{
    out.put_word(word);
    out.put(channel_digit(channel));
}

#[tactic(auto, using(crate::proofs::Puts::put_parts))]
pub(crate) fn put_row(out: &mut Writer, channel: Channel, preamble: PreambleAddressCode)
    ensures { Puts out.old (event_words (event.Preamble channel preamble)) out.new }
{
    put_for(out, b"row ", channel);
    out.put(b' ');
    out.put_decimal(preamble.row() as u32);
    out.put(b' ');
    out.put_decimal(preamble.code().style() as u32);
    out.put(b' ');
    out.put(flag_digit(preamble.underline()));
}

#[tactic(auto, using(crate::proofs::Puts::put_parts))]
pub(crate) fn put_mid(out: &mut Writer, channel: Channel, mid_row: MidRow)
    ensures { Puts out.old (event_words (event.MidRowChange channel mid_row)) out.new }
{
    put_for(out, b"mid ", channel);
    out.put(b' ');
    out.put_decimal(mid_row.number() as u32);
    out.put(b' ');
    out.put(flag_digit(mid_row.underline()));
}

#[tactic(auto, using(crate::proofs::Puts::put_parts))]
pub(crate) fn put_new_mode(out: &mut Writer, channel: Channel, mode: Mode)
    ensures { Puts out.old (event_words (event.NewMode channel mode)) out.new }
{
    put_for(out, b"mode ", channel);
    out.put(b' ');
    put_mode(out, mode);
}

#[tactic(auto, using(crate::proofs::Puts::put_parts))]
pub(crate) fn put_tab(out: &mut Writer, channel: Channel, columns: u8)
    ensures { Puts out.old (event_words (event.TabOffset channel columns)) out.new }
{
    put_for(out, b"tab ", channel);
    out.put(b' ');
    out.put_decimal(columns as u32);
}

// A space, and a code point as four hex digits or a dash, where there is room for both.
pub(crate) fn put_point(out: &mut Writer, character: Option<u32>)
    requires { HasRoom out.old 5 }
    ensures { Puts out.old (0x20 ∷ character_word character) out.new }
{
    match character {
        None => out.put_bytes(b" -"),
        Some(c) => out.put_bytes(&[
            b' ',
            hex_digit((c / 4096 % 16) as u8),
            hex_digit((c / 256 % 16) as u8),
            hex_digit((c / 16 % 16) as u8),
            hex_digit((c % 16) as u8),
        ]),
    }
}

// The words of text, where there is room: most events are such, and no byte is tested.
pub(crate) fn put_text(out: &mut Writer, text: Text)
    requires { HasRoom out.old 18 }
    ensures { Puts out.old (event_words (event.Text text)) out.new }
{
    let channel = channel_digit(text.channel);
    let flag = flag_digit(text.needs_backspace);
    out.put_bytes(&[b't', b'e', b'x', b't', b' ', channel, b' ', flag]);
    put_point(out, text.char1);
    put_point(out, text.char2);
}

// The words of an event, where there is room for those of text.
pub(crate) fn put_event(out: &mut Writer, event: Cea608)
    requires { HasRoom out.old 18 }
    ensures { Puts out.old (event_words event) out.new }
{
    match event {
        Cea608::Text(text) => put_text(out, text),
        Cea608::NewMode(channel, mode) => put_new_mode(out, channel, mode),
        Cea608::EraseDisplay(channel) => put_for(out, b"erase ", channel),
        Cea608::EraseNonDisplay(channel) => put_for(out, b"erasehidden ", channel),
        Cea608::CarriageReturn(channel) => put_for(out, b"return ", channel),
        Cea608::Backspace(channel) => put_for(out, b"back ", channel),
        Cea608::EndOfCaption(channel) => put_for(out, b"end ", channel),
        Cea608::TabOffset(channel, columns) => put_tab(out, channel, columns),
        Cea608::DeleteToEndOfRow(channel) => put_for(out, b"delete ", channel),
        Cea608::Preamble(channel, preamble) => put_row(out, channel, preamble),
        Cea608::MidRowChange(channel, mid_row) => put_mid(out, channel, mid_row),
    }
}

// The line of an event of the pair with this number, where there is room for any line.
pub(crate) fn put_event_line(out: &mut Writer, number: u32, event: Cea608)
    requires { (number < 100000000) × HasRoom out.old line_length }
    ensures { Puts out.old (line number (event_words event)) out.new }
{
    out.put_number(number);
    out.put_one(b' ');
    put_event(out, event);
    out.put_one(b'\n');
}

// The line of a refusal at the pair with this number. It takes any refusal's number, those of other crates too.
pub fn put_refused_line(out: &mut Writer, number: u32, refusal: u32)
    ensures { Puts out.old (line number (refused_words refusal)) out.new }
{
    out.put_decimal(number);
    out.put_word(b" refused ");
    out.put_decimal(refusal);
    out.put(b'\n');
}

// The line of what a pair gave, if it gave anything, with the same room.
pub(crate) fn put_line_of(
    out: &mut Writer,
    number: u32,
    heard: Result<Option<Cea608>, InvalidParity>,
)
    requires { (number < 100000000) × HasRoom out.old line_length }
    ensures { Puts out.old (line_of number (heard_outcome heard)) out.new }
{
    match heard {
        Ok(Some(event)) => put_event_line(out, number, event),
        Ok(None) => {}
        Err(InvalidParity) => put_refused_line(out, number, 1),
    }
}

pub(crate) fn put_last_line(out: &mut Writer, pairs: u32, refused: u32)
    ensures { Puts out.old (last_line pairs refused) out.new }
{
    out.put_word(b"pairs ");
    out.put_decimal(pairs);
    out.put_word(b" refused ");
    out.put_decimal(refused);
    out.put(b'\n');
}
