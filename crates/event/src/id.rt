// The four caption services: a field and a channel within it.
ghost use Rattle.std.specs.Prelude.{◌≡◌};
ghost use Rattle.event.specs.Id.{id_of, field_of_id, channel_of_id, from_value, from_value_outcome};

use code::{Channel, Field};

#[derive(Clone, Copy, Debug, PartialEq, Eq)]
pub enum Id {
    // Field one, channel one.
    CC1,
    // Field one, channel two.
    CC2,
    // Field two, channel one.
    CC3,
    // Field two, channel two.
    CC4,
}

// Refusal 6: no service has this number.
#[derive(Clone, Copy, Debug, PartialEq, Eq)]
pub struct NoSuchId;

impl Id {
    // The service of a number of 1 to 4.
    pub fn from_value(value: i8) -> Result<Id, NoSuchId>
        ensures { from_value_outcome result ≡ from_value value }
    {
        match value {
            1 => Ok(Id::CC1),
            2 => Ok(Id::CC2),
            3 => Ok(Id::CC3),
            4 => Ok(Id::CC4),
            _ => Err(NoSuchId),
        }
    }

    // The service of a field and a channel.
    pub fn from_caption_field_channel(field: Field, channel: Channel) -> Id
        ensures { result ≡ id_of field channel }
    {
        match (field, channel) {
            (Field(true), Channel(true)) => Id::CC1,
            (Field(true), Channel(false)) => Id::CC2,
            (Field(false), Channel(true)) => Id::CC3,
            (Field(false), Channel(false)) => Id::CC4,
        }
    }

    // The field that carries the service.
    pub fn field(self) -> Field
        ensures { result ≡ field_of_id self }
    {
        match self {
            Id::CC1 | Id::CC2 => Field::ONE,
            Id::CC3 | Id::CC4 => Field::TWO,
        }
    }

    // The service's channel within its field.
    pub fn channel(self) -> Channel
        ensures { result ≡ channel_of_id self }
    {
        match self {
            Id::CC1 | Id::CC3 => Channel::ONE,
            Id::CC2 | Id::CC4 => Channel::TWO,
        }
    }
}
