// A triplet: five marker bits of one, the valid bit, two bits of type, and two data bytes.
ghost use Rattle.std.specs.Prelude.{◌≡◌};
ghost use Rattle.triplet.specs.Triplet.{bytes_of, from_bytes_outcome, has_marker, passing_byte, read_triplet, triplet_of};

use code::{Field, Pair};

// What marks a triplet that is no pair of a field: its valid bit is clear, whatever the type, or the type is 2 or 3.
#[derive(Clone, Copy, Debug, PartialEq, Eq)]
pub enum Passing {
    Clear0,
    Clear1,
    Clear2,
    Clear3,
    Type2,
    Type3,
}

// A pair of a field, or two bytes that pass through as found. Each value is one triplet and each triplet one value.
#[derive(Clone, Copy)]
pub enum Triplet {
    OfField(Field, Pair),
    PassesThrough(Passing, u8, u8),
}

// The three bytes of a triplet.
#[derive(Clone, Copy, Debug, PartialEq, Eq)]
pub struct TripletBytes(pub u8, pub u8, pub u8);

// Refusal 16: the marker bits are wrong.
#[derive(Clone, Copy, Debug, PartialEq, Eq)]
pub struct WrongMarker;

// The five marker bits are ones.
pub(crate) fn has_marker(first: u8) -> bool
    ensures { result ≡ has_marker first }
{
    first / 8 == 31
}

// What three bytes are, by the valid bit and the type. The marker is not looked at.
pub(crate) fn triplet_of(bytes: TripletBytes) -> Triplet
    ensures { result ≡ triplet_of bytes.0 bytes.1 bytes.2 }
{
    let TripletBytes(first, second, third) = bytes;
    match first % 8 {
        0b000 => Triplet::PassesThrough(Passing::Clear0, second, third),
        0b001 => Triplet::PassesThrough(Passing::Clear1, second, third),
        0b010 => Triplet::PassesThrough(Passing::Clear2, second, third),
        0b011 => Triplet::PassesThrough(Passing::Clear3, second, third),
        0b100 => Triplet::OfField(Field::ONE, Pair(second, third)),
        0b101 => Triplet::OfField(Field::TWO, Pair(second, third)),
        0b110 => Triplet::PassesThrough(Passing::Type2, second, third),
        _ => Triplet::PassesThrough(Passing::Type3, second, third),
    }
}

// The first byte of a triplet that passes through. A match, since what `as` makes of a case is its place among them.
pub(crate) fn passing_byte(passing: Passing) -> u8
    ensures { result ≡ passing_byte passing }
{
    match passing {
        Passing::Clear0 => 0xF8,
        Passing::Clear1 => 0xF9,
        Passing::Clear2 => 0xFA,
        Passing::Clear3 => 0xFB,
        Passing::Type2 => 0xFE,
        Passing::Type3 => 0xFF,
    }
}

impl Triplet {
    // Reads three bytes. The parity of a pair is not judged here: the receiver refuses it.
    pub fn from_bytes(first: u8, second: u8, third: u8) -> Result<Triplet, WrongMarker>
        ensures { from_bytes_outcome result ≡ read_triplet first second third }
    {
        if has_marker(first) {
            Ok(triplet_of(TripletBytes(first, second, third)))
        } else {
            Err(WrongMarker)
        }
    }

    // The three bytes back.
    pub fn bytes(self) -> TripletBytes
        ensures { result ≡ bytes_of self }
    {
        match self {
            Triplet::OfField(Field(one), Pair(second, third)) => {
                TripletBytes(if one { 0xFC } else { 0xFD }, second, third)
            }
            Triplet::PassesThrough(passing, second, third) => {
                TripletBytes(passing_byte(passing), second, third)
            }
        }
    }
}
