// The triplets of ANSI/CTA-708, in which digital pictures carry byte pairs: what a triplet's three bytes mean, a packet of
// triplets read by place, and a triplet written after the bytes that a packet already has.

#![tactic(auto)]

pub mod packet;
pub mod triplet;
pub mod writer;

pub use packet::PacketError;
pub use triplet::{Passing, Triplet, TripletBytes, WrongMarker};
pub use writer::PutError;
