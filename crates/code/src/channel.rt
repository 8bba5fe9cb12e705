// The data channel and the field of a control code. Each has a type of its own, so that a channel is never taken for a
// field, as 01 names the form (docs/DECISIONS.md).
ghost use Rattle.std.specs.Prelude.{◌≡◌};
ghost use Rattle.code.specs.Channel.{channel_id, field_id};

// The data channel within a field. `true` is channel one, as in the crate.
#[derive(Clone, Copy, Debug, PartialEq, Eq)]
pub struct Channel(pub bool);

impl Channel {
    // Channel 1.
    pub const ONE: Channel = Channel(true);
    // Channel 2.
    pub const TWO: Channel = Channel(false);

    // The channel's number, 1 or 2.
    pub fn id(self) -> u8
        ensures { result ≡ channel_id self }
    {
        if self.0 { 1 } else { 2 }
    }
}

// The field of the picture. `true` is field one, as in the crate.
#[derive(Clone, Copy, Debug, PartialEq, Eq)]
pub struct Field(pub bool);

impl Field {
    // Field 1.
    pub const ONE: Field = Field(true);
    // Field 2.
    pub const TWO: Field = Field(false);

    // The field's number, 1 or 2.
    pub fn id(self) -> u8
        ensures { result ≡ field_id self }
    {
        if self.0 { 1 } else { 2 }
    }
}
