// Whether the sender has anything left to send.
ghost use Rattle.std.specs.Prelude.{◌≡◌};
ghost use Rattle.sender.specs.Sender.{idle_outcome, idle_sender, view};
ghost use Rattle.sender.specs.Sending.{is_idle};

use crate::sender::Sender;
use queue::IllFormed;

impl Sender {
    // Whether nothing waits, nothing is held and nothing is owed.
    #[tactic(auto, using(crate::proofs::NothingLeft::idle_by_parts))]
    pub(crate) fn has_nothing(&self) -> bool
        ensures { result ≡ is_idle (view self.now) }
    {
        self.queue.waiting == 0 && self.queue.held.is_none() && self.repeats.owed.is_none()
    }

    // Whether all that was accepted has been sent, each command twice.
    #[tactic(auto, unfolding(crate::specs::Sender::idle_sender))]
    pub fn is_idle(&self) -> Result<bool, IllFormed>
        ensures { idle_outcome (self.now, result) ≡ idle_sender self.now }
    {
        if !self.is_well_formed() {
            return Err(IllFormed);
        }
        Ok(self.has_nothing())
    }
}
