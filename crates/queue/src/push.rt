// Putting a code into the queue.
ghost use Rattle.std.specs.Prelude.{◌≡◌};
ghost use Rattle.queue.specs.Entry.{entry_for, entry_outcome, queueable_refusal};
ghost use Rattle.queue.specs.Ring.{push_outcome, push_refusal, push_ring};

use crate::queueable::{QueueableError, numbered};
use crate::ring::{PLACES, Queue};
use code::Code;

// Flat, so that one `match` of a caller has all of 01's numbers: the first three are those of `QueueableError`.
// `UnknownByte` is refusal 2, `NoSuchRow` refusal 3, `NotACommand` refusal 18, `Full` refusal 7, `IllFormed` refusal 12.
#[derive(Clone, Copy, Debug, PartialEq, Eq)]
pub enum PushError {
    UnknownByte,
    NoSuchRow,
    NotACommand,
    Full,
    IllFormed,
}

impl From<QueueableError> for PushError {
    ghost from_gives = { λ e r. push_refusal r ≡ queueable_refusal e };

    fn from(e: QueueableError) -> PushError {
        match e {
            QueueableError::UnknownByte => PushError::UnknownByte,
            QueueableError::NoSuchRow => PushError::NoSuchRow,
            QueueableError::NotACommand => PushError::NotACommand,
        }
    }
}

impl Queue {
    // The number that a push of a code stores; none for NUL, which is accepted and not stored. 12 is tested first; NUL
    // passes even where the queue is full; 2, 3 and 18 are tested before 7.
    #[tactic(auto, using(crate::proofs::Entries::ill_formed_entry, crate::proofs::Entries::nul_entry, crate::proofs::Entries::refused_entry, crate::proofs::Entries::full_entry, crate::proofs::Entries::stored_entry))]
    pub fn entry_for(&self, code: Code) -> Result<Option<u16>, PushError>
        ensures { entry_outcome result ≡ entry_for self.now.start self.now.waiting self.now.held code }
    {
        if !self.is_well_formed() {
            return Err(PushError::IllFormed);
        }
        match numbered(code)? {
            Some(_) if PLACES <= self.waiting => Err(PushError::Full),
            number => Ok(number),
        }
    }

    // Puts a code after those that wait, wrapping around to place 0. A refusal hands the queue back as it was.
    pub fn push(mut self, code: Code) -> (Queue, Result<(), PushError>)
        ensures { push_outcome result ≡ push_ring self code }
    {
        let answer = self.store(code);
        (self, answer)
    }

    // Puts a code after those that wait, in place: a push of the sender copies no ring for it.
    #[tactic(auto, using(crate::proofs::Entries::entry_has_room, crate::proofs::Entries::stored_push, crate::proofs::Entries::same_push, crate::proofs::Entries::refused_push))]
    pub fn store(&mut self, code: Code) -> Result<(), PushError>
        ensures { push_outcome (self.new, result) ≡ push_ring self.old code }
    {
        if let Some(number) = self.entry_for(code)? {
            self.places[(self.start + self.waiting) % PLACES] = number;
            self.waiting += 1;
        }
        Ok(())
    }
}
