// The two bytes that one field of a picture carries.
#[derive(Clone, Copy, Debug, PartialEq, Eq)]
pub struct Pair(pub u8, pub u8);
