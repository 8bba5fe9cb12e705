// Sending the next pair: a repeat that is owed, else a pair of the queue.
ghost use Rattle.std.specs.Prelude.{◌≡◌};
ghost use Rattle.sender.specs.ByParts.{moved, step_in};
ghost use Rattle.sender.specs.Sender.{send_outcome, send_sender};
ghost use Rattle.sender.specs.Sending.{repeats_after};

use crate::sender::{Repeats, Sender};
use crate::well_formed::is_command;
use code::Pair;
use queue::IllFormed;

// What a send does: the pair that goes out, how many places of the ring it frees, and what is held and owed afterwards.
#[derive(Clone, Copy)]
pub(crate) struct Step {
    pub pair: Pair,
    pub freed: usize,
    pub held: Option<u16>,
    pub repeats: Repeats,
}

// What is to be repeated once a pair of the queue has been sent: the same pair where it is a command.
pub(crate) fn repeats_after(pair: Pair) -> Repeats
    ensures { result ≡ repeats_after pair }
{
    Repeats {
        owed: is_command(pair).then_some(pair),
    }
}

impl Sender {
    // What a send would do.
    pub(crate) fn step(&self) -> Step
        ensures { result ≡ step_in self.now }
    {
        if let Some(pair) = self.repeats.owed {
            return Step {
                pair,
                freed: 0,
                held: self.queue.held,
                repeats: Repeats { owed: None },
            };
        }
        let turn = self.queue.turn();
        Step {
            pair: turn.pair,
            freed: turn.freed,
            held: turn.held,
            repeats: repeats_after(turn.pair),
        }
    }

    // Makes a step, in place. Where its pair is the queue's a pop would do the same, and copy the ring once more.
    pub(crate) fn make(&mut self, step: Step)
        ensures { self.new ≡ moved self.old step }
    {
        self.queue.move_on(step.freed, step.held);
        self.repeats = step.repeats;
    }

    // The next pair for the line; 80 80 where nothing is left to send.
    #[tactic(auto, using(crate::proofs::Steps::refused_send, crate::proofs::Steps::sent_by_step))]
    pub fn send(mut self) -> (Sender, Result<Pair, IllFormed>)
        ensures { send_outcome result ≡ send_sender self }
    {
        if !self.is_well_formed() {
            return (self, Err(IllFormed));
        }
        let step = self.step();
        self.make(step);
        (self, Ok(step.pair))
    }
}
