// The lines of the packets in a stream of pairs, in any pieces: a state by value takes input bytes and writes a line as soon
// as its packet has ended or its pair is refused.

#![tactic(auto)]

pub mod listing;
pub mod words;

pub use lines::Progress;
pub use listing::{PacketListing, ROOM};
