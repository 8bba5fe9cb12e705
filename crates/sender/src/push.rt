// Putting a code into the sender's queue.
ghost use Rattle.std.specs.Prelude.{◌≡◌};
ghost use Rattle.sender.specs.Sender.{push_outcome, push_sender};

use crate::sender::Sender;
use code::Code;
use queue::PushError;

impl Sender {
    // Puts a code after those that wait. NUL is accepted and not stored; a refusal hands the sender back as it was.
    #[tactic(auto, using(crate::proofs::RepeatsFit::refused_push))]
    pub fn push(mut self, code: Code) -> (Sender, Result<(), PushError>)
        ensures { push_outcome result ≡ push_sender self code }
    {
        if !self.repeats.is_well_formed() {
            return (self, Err(PushError::IllFormed));
        }
        let answer = self.queue.store(code);
        (self, answer)
    }
}
