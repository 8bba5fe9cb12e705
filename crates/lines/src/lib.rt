// The listing of a stream of pairs, in any pieces: a state by value takes input bytes and gives text as there is room.

#![tactic(auto)]

pub mod line;
pub mod listing;
pub mod put;
pub mod words;

pub use line::Line;
pub use listing::{Listing, Progress};
pub use put::Writer;
