// Mid-row codes: a change of colour, italics or underline within a row. A receiver shows one as a space.
ghost use Rattle.std.specs.Prelude.{◌≡◌, ◌<◌};
ghost use Rattle.code.specs.MidRow.{mid_row_at, mid_row_number, colored, italic, color_in, is_italic, is_underlined};

use crate::color::Color;

// Italics are no absence of a colour, so that this is no option.
#[derive(Clone, Copy, Debug, PartialEq, Eq)]
pub enum MidRowColor {
    Color(Color),
    Italics,
}

#[derive(Clone, Copy, Debug, PartialEq, Eq)]
pub struct MidRow {
    pub color: MidRowColor,
    pub underline: bool,
}

impl MidRow {
    // A change to a colour, which also ends italics.
    pub fn new_color(color: Color, underline: bool) -> MidRow
        ensures { result ≡ colored color underline }
    {
        MidRow {
            color: MidRowColor::Color(color),
            underline,
        }
    }

    // A change to italics.
    pub fn new_italics(underline: bool) -> MidRow
        ensures { result ≡ italic underline }
    {
        MidRow {
            color: MidRowColor::Italics,
            underline,
        }
    }

    // The colour that it sets, or none: italics leave the colour as it is.
    pub fn color(self) -> Option<Color>
        ensures { result ≡ color_in self }
    {
        match self.color {
            MidRowColor::Color(color) => Some(color),
            MidRowColor::Italics => None,
        }
    }

    // Whether what follows is underlined.
    pub fn underline(self) -> bool
        ensures { result ≡ is_underlined self }
    {
        self.underline
    }

    // Whether what follows is in italics.
    pub fn italics(self) -> bool
        ensures { result ≡ is_italic self }
    {
        matches!(self.color, MidRowColor::Italics)
    }

    // 0 to 6 the colours, 7 italics.
    pub fn number(self) -> u8
        ensures { result ≡ mid_row_number self }
    {
        match self.color {
            MidRowColor::Color(color) => color.number(),
            MidRowColor::Italics => 7,
        }
    }

    // The mid-row code of a number below 8. It needs the underline too, so that it is no `TryFrom`.
    pub(crate) fn at(n: u8, underline: bool) -> MidRow
        requires { n < 8 }
        ensures { result ≡ mid_row_at n underline }
    {
        if n < 7 {
            MidRow::new_color(Color::try_from(n).unwrap(), underline)
        } else {
            MidRow::new_italics(underline)
        }
    }
}
