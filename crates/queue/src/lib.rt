// The queue: codes in, pairs out, nothing lost. At most 64 codes wait in a ring by value, one more may be held, and each
// pop gives the next pair for the line. It knows pairs only by what the code layer promises.

#![tactic(auto)]

pub mod count;
pub mod number;
pub mod pop;
pub mod push;
pub mod queueable;
pub mod ring;
pub mod well_formed;

pub use pop::Turn;
pub use push::PushError;
pub use ring::Queue;
pub use well_formed::IllFormed;
