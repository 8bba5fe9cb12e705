// The numbers of the small enums, by which a code's bytes name them.

// No value has this number.
#[derive(Clone, Copy, Debug, PartialEq, Eq)]
pub struct NoSuchNumber;
