// Preamble address codes: where a row of captions starts and what it looks like.
ghost use Rattle.std.specs.Prelude.{◌≡◌, ◌<◌};
ghost use Rattle.code.specs.Number.{numbered};
ghost use Rattle.code.specs.Preamble.{style_at, style_of, color_type, color_of_style, indent_in, from_indent, from_indent_outcome, new_preamble, new_preamble_outcome, row_in, column_in, type_in, underline_in, italics_in, color_in_row};

use crate::color::Color;
use crate::number::NoSuchNumber;

// The sixteen styles. An indent is white and not in italics.
#[derive(Clone, Copy, Debug, PartialEq, Eq)]
pub enum PreambleType {
    Color(Color),
    WhiteItalics,
    Indent0,
    Indent4,
    Indent8,
    Indent12,
    Indent16,
    Indent20,
    Indent24,
    Indent28,
}

// Refusal 8: no indent has so many columns.
#[derive(Clone, Copy, Debug, PartialEq, Eq)]
pub struct NoSuchIndent;

impl TryFrom<u8> for PreambleType {
    type Error = NoSuchNumber;

    ghost try_from_gives = { λ n r. r ≡ numbered 16 style_at n };

    // The style of a number of 0 to 15.
    fn try_from(style: u8) -> Result<PreambleType, NoSuchNumber> {
        match style {
            0..=6 => Ok(PreambleType::Color(Color::try_from(style).unwrap())),
            7 => Ok(PreambleType::WhiteItalics),
            8 => Ok(PreambleType::Indent0),
            9 => Ok(PreambleType::Indent4),
            10 => Ok(PreambleType::Indent8),
            11 => Ok(PreambleType::Indent12),
            12 => Ok(PreambleType::Indent16),
            13 => Ok(PreambleType::Indent20),
            14 => Ok(PreambleType::Indent24),
            15 => Ok(PreambleType::Indent28),
            _ => Err(NoSuchNumber),
        }
    }
}

impl PreambleType {
    // The style of an indent of 0, 4, .. 28 columns.
    pub fn from_indent(indent: u8) -> Result<PreambleType, NoSuchIndent>
        ensures { from_indent_outcome result ≡ from_indent indent }
    {
        if indent % 4 == 0 && indent <= 28 {
            Ok(PreambleType::try_from(8 + indent / 4).unwrap())
        } else {
            Err(NoSuchIndent)
        }
    }

    // The style of a colour.
    pub fn from_color(color: Color) -> PreambleType
        ensures { result ≡ color_type color }
    {
        PreambleType::Color(color)
    }

    // The colour of a row in this style.
    pub fn color(self) -> Color
        ensures { result ≡ color_of_style self }
    {
        match self {
            PreambleType::Color(color) => color,
            _ => Color::White,
        }
    }

    // The column that an indent starts at; a colour and white italics have none.
    pub fn indent(self) -> Option<u8>
        ensures { result ≡ indent_in self }
    {
        let style = self.style();
        if style < 8 {
            None
        } else {
            Some((style - 8) * 4)
        }
    }

    // The style's number: 0 to 6 the colours, 7 white italics, 8 to 15 the indents. It runs over two enums, so that no cast
    // gives it.
    pub fn style(self) -> u8
        ensures { result ≡ style_of self }
    {
        match self {
            PreambleType::Color(color) => color.number(),
            PreambleType::WhiteItalics => 7,
            PreambleType::Indent0 => 8,
            PreambleType::Indent4 => 9,
            PreambleType::Indent8 => 10,
            PreambleType::Indent12 => 11,
            PreambleType::Indent16 => 12,
            PreambleType::Indent20 => 13,
            PreambleType::Indent24 => 14,
            PreambleType::Indent28 => 15,
        }
    }
}

// A row of 0 to 14 on the screen, counted from the top, and its style. A row above 14 is no row: no constructor makes
// one, and a code that holds one is not written.
#[derive(Clone, Copy, Debug, PartialEq, Eq)]
pub struct PreambleAddressCode {
    pub row: u8,
    pub underline: bool,
    pub ty: PreambleType,
}

// Refusal 3: a row above 14.
#[derive(Clone, Copy, Debug, PartialEq, Eq)]
pub struct NoSuchRow;

impl PreambleAddressCode {
    // The preamble of a row, 0 to 14.
    pub fn new(
        row: u8,
        underline: bool,
        code: PreambleType,
    ) -> Result<PreambleAddressCode, NoSuchRow>
        ensures { new_preamble_outcome result ≡ new_preamble row underline code }
    {
        if row < 15 {
            Ok(PreambleAddressCode {
                row,
                underline,
                ty: code,
            })
        } else {
            Err(NoSuchRow)
        }
    }

    // The row, counted from 0 at the top.
    pub fn row(self) -> u8
        ensures { result ≡ row_in self }
    {
        self.row
    }

    // The column where the row starts.
    pub fn column(self) -> u8
        ensures { result ≡ column_in self }
    {
        self.ty.indent().unwrap_or(0)
    }

    // Whether the row is underlined.
    pub fn underline(self) -> bool
        ensures { result ≡ underline_in self }
    {
        self.underline
    }

    // The style.
    pub fn code(self) -> PreambleType
        ensures { result ≡ type_in self }
    {
        self.ty
    }

    // Whether the row is in italics.
    pub fn italics(self) -> bool
        ensures { result ≡ italics_in self }
    {
        matches!(self.ty, PreambleType::WhiteItalics)
    }

    // The colour of the row.
    pub fn color(self) -> Color
        ensures { result ≡ color_in_row self }
    {
        self.ty.color()
    }
}
