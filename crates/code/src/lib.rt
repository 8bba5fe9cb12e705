// What a byte pair on line 21 means, and how a code is written into one: parity, the standard characters, the control
// codes, and reading and writing a pair. Everything above this crate knows pairs only by what is promised here.

#![tactic(auto)]

pub mod channel;
pub mod character;
pub mod code;
pub mod color;
pub mod column;
pub mod control;
pub mod letter;
pub mod midrow;
pub mod number;
pub mod pair;
pub mod parity;
pub mod preamble;
pub mod read;
pub mod symbol;
pub mod tables;
pub mod write;

pub use channel::{Channel, Field};
pub use character::NoSuchCharacter;
pub use code::Code;
pub use color::Color;
pub use column::Column;
pub use control::{Command, Control, ControlCode, NoSuchTab, Tab};
pub use letter::{Letter, LetterRow};
pub use midrow::{MidRow, MidRowColor};
pub use number::NoSuchNumber;
pub use pair::Pair;
pub use preamble::{NoSuchIndent, NoSuchRow, PreambleAddressCode, PreambleType};
pub use read::InvalidParity;
pub use symbol::{Symbol, SymbolRow};
pub use write::WriteError;
