// The number of each refusal: the first byte of its answer.
use code::{InvalidParity, NoSuchCharacter, NoSuchIndent, NoSuchRow, NoSuchTab, WriteError};
use event::{IntoCodeError, NoSuchId};
use extended::ExtendedError;
use queue::{IllFormed, PushError};
use sender::DrainError;

#[derive(Clone, Copy)]
pub(crate) struct Refusal {
    pub number: u8,
    // For 5, which character of a text has no code, where it has two.
    pub character: u8,
}

// An answer of sixteen bytes, or a refusal.
pub(crate) type Answer = Result<[u8; 16], Refusal>;

// What is not in the format.
pub(crate) const NOT_A_QUERY: Refusal = Refusal {
    number: 0xFF,
    character: 0,
};

impl Refusal {
    // A refusal that is its number alone.
    fn of(number: u8) -> Refusal {
        Refusal {
            number,
            character: 0,
        }
    }

    // The answer that says it.
    pub(crate) fn bytes(self) -> [u8; 16] {
        let mut out = [0u8; 16];
        out[0] = self.number;
        out[13] = self.character;
        out
    }
}

impl From<InvalidParity> for Refusal {
    fn from(_e: InvalidParity) -> Refusal {
        Refusal::of(1)
    }
}

impl From<WriteError> for Refusal {
    fn from(e: WriteError) -> Refusal {
        match e {
            WriteError::UnknownByte => Refusal::of(2),
            WriteError::NoSuchRow => Refusal::of(3),
        }
    }
}

impl From<NoSuchRow> for Refusal {
    fn from(_e: NoSuchRow) -> Refusal {
        Refusal::of(3)
    }
}

impl From<NoSuchTab> for Refusal {
    fn from(_e: NoSuchTab) -> Refusal {
        Refusal::of(4)
    }
}

impl From<NoSuchCharacter> for Refusal {
    fn from(_e: NoSuchCharacter) -> Refusal {
        Refusal::of(5)
    }
}

impl From<NoSuchIndent> for Refusal {
    fn from(_e: NoSuchIndent) -> Refusal {
        Refusal::of(8)
    }
}

impl From<IntoCodeError> for Refusal {
    fn from(e: IntoCodeError) -> Refusal {
        match e {
            IntoCodeError::NoSuchRow => Refusal::of(3),
            IntoCodeError::NoSuchTab => Refusal::of(4),
            IntoCodeError::NoSuchFirst => Refusal {
                number: 5,
                character: 1,
            },
            IntoCodeError::NoSuchSecond => Refusal {
                number: 5,
                character: 2,
            },
        }
    }
}

impl From<NoSuchId> for Refusal {
    fn from(_e: NoSuchId) -> Refusal {
        Refusal::of(6)
    }
}

impl From<PushError> for Refusal {
    fn from(e: PushError) -> Refusal {
        match e {
            PushError::UnknownByte => Refusal::of(2),
            PushError::NoSuchRow => Refusal::of(3),
            PushError::NotACommand => Refusal::of(18),
            PushError::Full => Refusal::of(7),
            PushError::IllFormed => Refusal::of(12),
        }
    }
}

impl From<IllFormed> for Refusal {
    fn from(_e: IllFormed) -> Refusal {
        Refusal::of(12)
    }
}

impl From<DrainError> for Refusal {
    fn from(e: DrainError) -> Refusal {
        match e {
            DrainError::StartPastEnd => Refusal::of(11),
            DrainError::IllFormed => Refusal::of(12),
        }
    }
}

impl From<ExtendedError> for Refusal {
    fn from(e: ExtendedError) -> Refusal {
        match e {
            ExtendedError::InvalidParity => Refusal::of(1),
            ExtendedError::NotOpen => Refusal::of(13),
            ExtendedError::TooLong => Refusal::of(14),
            ExtendedError::WrongSum => Refusal::of(15),
        }
    }
}
