// The receiver: the caption events that pairs encode, one field at a time. A command that is sent twice acts once, and
// text goes to the channel of the last command.

#![tactic(auto)]

pub mod heard;
pub mod state;

pub use state::{Cea608State, LastChannel};
