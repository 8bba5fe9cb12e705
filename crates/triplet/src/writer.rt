// A triplet written after the bytes that a packet already has.
ghost use Rattle.std.specs.Prelude.{◌≡◌};
ghost use Rattle.triplet.specs.Writer.{of_packet_error, put_outcome, put_triplet};

use crate::packet::{PacketError, judge};
use crate::triplet::{Triplet, TripletBytes};

// Why no triplet is written: 17 first, 31 last.
#[derive(Clone, Copy, Debug, PartialEq, Eq)]
pub enum PutError {
    // Refusal 17: the length of what is there is no multiple of 3.
    NotWhole,
    // Refusal 16: the marker bits of a triplet that is there are wrong.
    WrongMarker,
    // Refusal 31: no room is left for the triplet.
    NoRoom,
}

impl From<PacketError> for PutError {
    ghost from_gives = { λ e p. p ≡ of_packet_error e };

    fn from(error: PacketError) -> PutError {
        match error {
            PacketError::NotWhole => PutError::NotWhole,
            PacketError::WrongMarker => PutError::WrongMarker,
        }
    }
}

// Writes a triplet after the first `used` bytes, and says how many bytes the packet has then. A refusal writes nothing; 31 is
// also the answer where the packet has fewer bytes than `used`.
#[tactic(auto, using(crate::proofs::Bytes::put_is_judged, crate::proofs::Bytes::three_written))]
pub fn put(packet: &mut [u8], used: usize, triplet: Triplet) -> Result<usize, PutError>
    ensures { (put_outcome result, packet.new) ≡ put_triplet packet.old used triplet }
{
    judge(packet, used)?;
    if packet.len().saturating_sub(used) < 3 {
        return Err(PutError::NoRoom);
    }
    let TripletBytes(first, second, third) = triplet.bytes();
    packet[used..used + 3].copy_from_slice(&[first, second, third]);
    Ok(used + 3)
}
