// Values of the code layer from the bytes of a query. A byte outside its range stands for some value or other.
//
// Each table is written out here once more on purpose, where the code layer's `try_from` would do: a table of the code layer
// is not asked what it means, so that an error in it shows in the comparison.
ghost use Rattle.std.specs.Prelude.{◌+◌, ◌≤◌, length};

use code::{
    Channel, Code, Color, Column, Command, Control, ControlCode, Field, Letter, LetterRow, MidRow,
    MidRowColor, Pair, PreambleAddressCode, PreambleType, Symbol, SymbolRow, Tab,
};

// So many bytes from a place on.
pub(crate) fn bytes_at<const N: usize>(bytes: &[u8], at: usize) -> [u8; N]
    requires { at + N ≤ length bytes.now }
{
    let mut out = [0u8; N];
    out.copy_from_slice(&bytes[at..at + N]);
    out
}

pub(crate) fn channel(n: u8) -> Channel {
    Channel(n == 1)
}

pub(crate) fn field(n: u8) -> Option<Field> {
    (n != 0).then_some(Field(n == 1))
}

pub(crate) fn color(n: u8) -> Color {
    match n {
        0 => Color::White,
        1 => Color::Green,
        2 => Color::Blue,
        3 => Color::Cyan,
        4 => Color::Red,
        5 => Color::Yellow,
        _ => Color::Magenta,
    }
}

pub(crate) fn style(n: u8) -> PreambleType {
    match n {
        0..=6 => PreambleType::Color(color(n)),
        7 => PreambleType::WhiteItalics,
        8 => PreambleType::Indent0,
        9 => PreambleType::Indent4,
        10 => PreambleType::Indent8,
        11 => PreambleType::Indent12,
        12 => PreambleType::Indent16,
        13 => PreambleType::Indent20,
        14 => PreambleType::Indent24,
        _ => PreambleType::Indent28,
    }
}

fn column(n: u8) -> Column {
    match n {
        0 => Column::C0,
        1 => Column::C1,
        2 => Column::C2,
        3 => Column::C3,
        4 => Column::C4,
        5 => Column::C5,
        6 => Column::C6,
        7 => Column::C7,
        8 => Column::C8,
        9 => Column::C9,
        10 => Column::CA,
        11 => Column::CB,
        12 => Column::CC,
        13 => Column::CD,
        14 => Column::CE,
        _ => Column::CF,
    }
}

fn letter(place: u8) -> Letter {
    let row = match place / 16 {
        0 => LetterRow::Row2,
        1 => LetterRow::Row3,
        2 => LetterRow::Row4,
        3 => LetterRow::Row5,
        4 => LetterRow::Row6,
        _ => LetterRow::Row7,
    };
    Letter {
        row,
        column: column(place % 16),
    }
}

fn symbol(place: u8) -> Symbol {
    let row = match place / 16 {
        0 => SymbolRow::Special,
        1 => SymbolRow::Spanish,
        2 => SymbolRow::French,
        3 => SymbolRow::Portuguese,
        _ => SymbolRow::German,
    };
    Symbol {
        row,
        column: column(place % 16),
    }
}

pub(crate) fn command(n: u8) -> Command {
    match n {
        0 => Command::ResumeCaptionLoading,
        1 => Command::Backspace,
        2 => Command::AlarmOff,
        3 => Command::AlarmOn,
        4 => Command::DeleteToEndOfRow,
        5 => Command::RollUp2,
        6 => Command::RollUp3,
        7 => Command::RollUp4,
        8 => Command::FlashOn,
        9 => Command::ResumeDirectionCaptioning,
        10 => Command::TextRestart,
        11 => Command::ResumeTextDisplay,
        12 => Command::EraseDisplayedMemory,
        13 => Command::CarriageReturn,
        14 => Command::EraseNonDisplayedMemory,
        _ => Command::EndOfCaption,
    }
}

fn tab(n: u8) -> Tab {
    match n {
        1 => Tab::TabOffset1,
        2 => Tab::TabOffset2,
        _ => Tab::TabOffset3,
    }
}

pub(crate) fn mid_row(n: u8, underline: bool) -> MidRow {
    let color = if n < 7 {
        MidRowColor::Color(color(n))
    } else {
        MidRowColor::Italics
    };
    MidRow { color, underline }
}

// A control by its kind, 3 to 8, and x, y and z.
pub(crate) fn control(kind: u8, x: u8, y: u8, z: u8) -> Control {
    match kind {
        3 => Control::MidRow(mid_row(x, y == 1)),
        4 => Control::Symbol(symbol(x)),
        5 => Control::Command(command(x)),
        6 => Control::Tab(tab(x)),
        7 => Control::Preamble(PreambleAddressCode {
            row: x,
            underline: z == 1,
            ty: style(y),
        }),
        _ => Control::Unknown(x, y),
    }
}

// A code by its kind, field, channel, x, y and z.
pub(crate) fn code(bytes: [u8; 6]) -> Code {
    let [kind, of_field, of_channel, x, y, z] = bytes;
    match kind {
        0 => Code::Nul,
        1 => Code::Letter(letter(x)),
        2 => Code::Unknown(x),
        _ => Code::Control(ControlCode {
            field: field(of_field),
            channel: channel(of_channel),
            control: control(kind, x, y, z),
        }),
    }
}

// A pair, where the first byte is 1.
pub(crate) fn maybe_pair(bytes: [u8; 3]) -> Option<Pair> {
    let [there, first, second] = bytes;
    (there == 1).then_some(Pair(first, second))
}
