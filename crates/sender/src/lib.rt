// The sender: the queue's pairs for the line, each command twice in a row. It tests any state that is handed in, as the
// queue does, and knows commands only by the first byte of a pair.

#![tactic(auto)]

pub mod count;
pub mod drain;
pub mod idle;
pub mod push;
pub mod send;
pub mod sender;
pub mod well_formed;

pub use drain::DrainError;
pub use sender::{Repeats, Sender};
