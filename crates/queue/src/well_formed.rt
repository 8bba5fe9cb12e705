// Whether a state that was handed in meets the clauses of refusal 12. Each number stands for a code that may wait, so
// that no place of the ring is looked at.
ghost use Rattle.std.specs.Prelude.{◌≡◌};
ghost use Rattle.queue.specs.Ring.{well_formed};

use crate::ring::{PLACES, Queue};

// Refusal 12: the state that was handed in is not well formed.
#[derive(Clone, Copy, Debug, PartialEq, Eq)]
pub struct IllFormed;

impl Queue {
    // Whether refusal 12 does not apply. What is held has two bytes.
    #[tactic(auto, using(crate::proofs::WellFormed::formed_by_the_rest, crate::proofs::WellFormed::held_told))]
    pub fn is_well_formed(&self) -> bool
        ensures { result ≡ well_formed self.now }
    {
        self.start < PLACES
            && self.waiting <= PLACES
            && self.held.is_none_or(|number| number < 0x8000)
    }
}
