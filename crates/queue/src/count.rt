// How many codes the queue has.
ghost use Rattle.std.specs.Prelude.{◌≡◌};
ghost use Rattle.queue.specs.Ring.{count_outcome, count_ring};

use crate::ring::Queue;
use crate::well_formed::IllFormed;

impl Queue {
    // The codes that wait, and the held one.
    #[tactic(auto, using(crate::proofs::Places::how_many_lem, crate::proofs::WellFormed::waiting_fits), unfolding(crate::specs::Ring::count_ring))]
    pub fn n_codes(&self) -> Result<usize, IllFormed>
        ensures { count_outcome (self.now, result) ≡ count_ring self.now }
    {
        if !self.is_well_formed() {
            return Err(IllFormed);
        }
        Ok(self.waiting + self.held.is_some() as usize)
    }
}
