// Captions with the extended data between them: a reading mode beside the receiver's, for field two. Packets are told apart
// from captions, put together and reported when they are whole.

#![tactic(auto)]

pub mod class;
pub mod packet;
pub mod part;
pub mod state;

pub use class::Class;
pub use packet::{Contents, Packet, Unfinished};
pub use state::{ExtendedError, ExtendedState, Given, Running};
