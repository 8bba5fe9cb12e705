// What a caption decoder reports: the eleven events with their channel, the presentation modes and the caption
// services; and an event turned back into codes.

#![tactic(auto)]

pub mod event;
pub mod id;
pub mod into_code;
pub mod mode;

pub use event::{Cea608, Text};
pub use id::{Id, NoSuchId};
pub use into_code::IntoCodeError;
pub use mode::Mode;
