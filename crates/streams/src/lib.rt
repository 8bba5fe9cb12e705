// What the programs share that list streams: the way through the files, and what is said where one fails. What is listed,
// and how, is a trait's (`Lister`).

#![tactic(auto)]

pub mod lister;
mod system;

pub use lister::{BLOCK, Failure, Lister};
