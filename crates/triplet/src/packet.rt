// A packet of triplets, read by place. It is whole or refused: 17 and then 16 are judged over all of it before any triplet
// of it counts.
ghost use Rattle.std.specs.Prelude.{◌≡◌, take};
ghost use Rattle.triplet.specs.Packet.{at_outcome, at_place, count_of, count_outcome, judged_outcome, markers_right, whole};
ghost use Rattle.code.specs.Outcome.{answer, refused};

use crate::triplet::{Triplet, TripletBytes, has_marker, triplet_of};

// What is wrong with bytes that should be whole triplets with right markers: 17 before 16.
#[derive(Clone, Copy, Debug, PartialEq, Eq)]
pub enum PacketError {
    // Refusal 17: the length is no multiple of 3.
    NotWhole,
    // Refusal 16: a triplet's marker bits are wrong.
    WrongMarker,
}

// Each whole triplet has the marker.
fn markers_right(bytes: &[u8]) -> bool
    ensures { result ≡ markers_right bytes.now }
{
    bytes.chunks_exact(3).all(|triplet| has_marker(triplet[0]))
}

// Judges the first `used` bytes of a packet, as far as they are there.
pub(crate) fn judge(packet: &[u8], used: usize) -> Result<(), PacketError>
    ensures { judged_outcome result ≡ whole used (take used packet.now) refused (answer tt) }
{
    if used % 3 != 0 {
        return Err(PacketError::NotWhole);
    }
    if !markers_right(&packet[..used.min(packet.len())]) {
        return Err(PacketError::WrongMarker);
    }
    Ok(())
}

// How many triplets a packet has.
#[tactic(auto, using(crate::proofs::Bytes::how_many_triplets, crate::proofs::Bytes::read_is_judged))]
pub fn count(packet: &[u8]) -> Result<usize, PacketError>
    ensures { count_outcome result ≡ count_of packet.now }
{
    judge(packet, packet.len())?;
    Ok(packet.len() / 3)
}

// The triplet at a place, from 0 on, or `None` past the last.
#[tactic(auto, using(crate::proofs::Bytes::read_is_judged))]
pub fn triplet_at(packet: &[u8], place: usize) -> Result<Option<Triplet>, PacketError>
    ensures { at_outcome result ≡ at_place packet.now place }
{
    judge(packet, packet.len())?;
    let there = packet.chunks_exact(3).nth(place);
    Ok(there.map(|bytes| triplet_of(TripletBytes(bytes[0], bytes[1], bytes[2]))))
}
