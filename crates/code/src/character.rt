// The character of a code, and the code of a character.
ghost use Rattle.std.specs.Prelude.{◌≡◌};
ghost use Rattle.code.specs.Tables.{character_of};
ghost use Rattle.code.specs.Code.{char_of, control_char, letter_char, symbol_char, from_char, from_char_outcome, symbol_code};
ghost use Rattle.code.specs.Characters.{place_of, symbols};

use crate::channel::Channel;
use crate::code::Code;
use crate::control::{Control, ControlCode};
use crate::letter::Letter;
use crate::symbol::Symbol;
use crate::tables::{code_table, control_table, find_point, point_at};

// Refusal 5: no code has this character.
#[derive(Clone, Copy, Debug, PartialEq, Eq)]
pub struct NoSuchCharacter;

// The character of a table's code point, in which 0 stands for none.
pub(crate) fn character_of(point: u32) -> Option<u32>
    ensures { result ≡ character_of point }
{
    if point == 0 { None } else { Some(point) }
}

impl Letter {
    // The letter's code point. Every letter has one.
    #[tactic(auto, using(crate::proofs::Bytes::letter_point))]
    pub(crate) fn char(self) -> Option<u32>
        ensures { result ≡ letter_char self }
    {
        Some(point_at(self.place()))
    }
}

impl Symbol {
    // The symbol's code point; the transparent space has none.
    #[tactic(auto, using(crate::proofs::Bytes::symbol_point))]
    pub(crate) fn char(self) -> Option<u32>
        ensures { result ≡ symbol_char self }
    {
        character_of(point_at(96 + self.place()))
    }
}

impl Code {
    // The code point of the character that a receiver shows for the code, if any.
    #[tactic(auto, unfolding(crate::specs::Code::char_of))]
    pub fn char(self) -> Option<u32>
        ensures { result ≡ char_of self }
    {
        match self {
            Code::Control(code) => code.control.char(),
            Code::Letter(letter) => letter.char(),
            Code::Nul | Code::Unknown(_) => None,
        }
    }

    // The code of a character: a standard character, else a symbol of the channel. The first entry of the table is NUL's,
    // which has no character.
    pub fn from_char(c: u32, channel: Channel) -> Result<Code, NoSuchCharacter>
        ensures { from_char_outcome result ≡ from_char c channel }
    {
        if c == 0 {
            return Err(NoSuchCharacter);
        }
        let table = code_table();
        match find_point(&table, c) {
            Some(entry) => Ok(Code::Letter(Letter::try_from((entry - 1) as u8).unwrap())),
            None => Code::symbol_from_char(c, channel),
        }
    }

    // The code of a character that is a symbol. The symbols come first in the table; the commands and tabs after them have
    // no character.
    pub(crate) fn symbol_from_char(c: u32, channel: Channel) -> Result<Code, NoSuchCharacter>
        requires { c ≡ 0 → ⊥ }
        ensures { from_char_outcome result ≡ symbol_code channel (place_of c symbols) }
    {
        let table = control_table();
        match find_point(&table, c) {
            Some(entry) => Ok(Code::Control(ControlCode {
                field: None,
                channel,
                control: Control::Symbol(Symbol::try_from(entry as u8).unwrap()),
            })),
            None => Err(NoSuchCharacter),
        }
    }
}

impl Control {
    // The code point of the character that a receiver shows for the control, if any.
    pub fn char(self) -> Option<u32>
        ensures { result ≡ control_char self }
    {
        match self {
            Control::Symbol(symbol) => symbol.char(),
            _ => None,
        }
    }
}
