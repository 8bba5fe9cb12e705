// How many codes the sender has.
ghost use Rattle.std.specs.Prelude.{◌≡◌};
ghost use Rattle.sender.specs.Sender.{count_outcome, count_sender};

use crate::sender::Sender;
use queue::IllFormed;

impl Sender {
    // The codes that wait, and the held one. A pair that is owed is no code.
    #[tactic(auto, using(crate::proofs::RepeatsFit::refused_count, crate::proofs::RepeatsFit::counted_by_queue))]
    pub fn n_codes(&self) -> Result<usize, IllFormed>
        ensures { count_outcome (self.now, result) ≡ count_sender self.now }
    {
        if !self.repeats.is_well_formed() {
            return Err(IllFormed);
        }
        self.queue.n_codes()
    }
}
