// Writing what is left to send into an output, in whole pairs.
ghost use Rattle.std.specs.Prelude.{true, ◌≡◌};
ghost use Rattle.sender.specs.ByParts.{filling};
ghost use Rattle.sender.specs.Drain.{drain_outcome, drain_sender};
ghost use Rattle.sender.specs.Sender.{well_formed};

use crate::sender::Sender;

// `StartPastEnd` is refusal 11, `IllFormed` refusal 12.
#[derive(Clone, Copy, Debug, PartialEq, Eq)]
pub enum DrainError {
    StartPastEnd,
    IllFormed,
}

impl Sender {
    // The writer of pairs: fills a part of the output from its beginning, until idle, out of room or at the limit. Gives
    // the count of sends and the sender after them.
    pub(crate) fn write_pairs(mut self, part: &mut [u8], limit: usize) -> (usize, Sender)
        requires { well_formed self ≡ true }
        ensures { (result.0, result.1, part.new) ≡ filling self part.old limit }
    {
        let most = limit.min(part.len() / 2);
        for sends in 0..most {
            if self.has_nothing() {
                return (sends, self);
            }
            let step = self.step();
            part[2 * sends] = step.pair.0;
            part[2 * sends + 1] = step.pair.1;
            self.make(step);
        }
        (most, self)
    }

    // Writes whole pairs into the output from the start on, and gives the count of sends. A refusal changes no byte and
    // no state.
    pub fn drain(
        self,
        out: &mut [u8],
        start: usize,
        limit: usize,
    ) -> (Sender, Result<usize, DrainError>)
        ensures { drain_outcome result out.new ≡ drain_sender self out.old start limit }
    {
        if !self.is_well_formed() {
            return (self, Err(DrainError::IllFormed));
        }
        if out.len() < start {
            return (self, Err(DrainError::StartPastEnd));
        }
        let (sends, sender) = self.write_pairs(&mut out[start..], limit);
        (sender, Ok(sends))
    }
}
