// Taking the next pair for the line out of the queue.
ghost use Rattle.std.specs.Prelude.{◌≡◌, ◌≤◌, ◌<◌};
ghost use Rattle.queue.specs.Ring.{pop_outcome, pop_ring};
ghost use Rattle.queue.specs.Turn.{command_turn, moved_on, single_turn, turn_in};

use crate::number::{byte_of, is_single, needs_backspace, pair_of};
use crate::ring::{PLACES, Queue};
use crate::well_formed::IllFormed;
use code::Pair;

// What a pop does: the pair that goes out, how many places it frees, and what is held afterwards.
#[derive(Clone, Copy)]
pub struct Turn {
    pub pair: Pair,
    pub freed: usize,
    pub held: Option<u16>,
}

// A command with no single code before it. One that needs a backspace is held, and a space goes out first: an extended
// character replaces it, and a mid-row code, which replaces nothing, comes after it.
pub(crate) fn command_turn(command: u16) -> Turn
    requires { command < 0x8000 }
    ensures { result ≡ command_turn command }
{
    if needs_backspace(command) {
        return Turn {
            pair: Pair(0x20, 0x80),
            freed: 1,
            held: Some(command),
        };
    }
    Turn {
        pair: pair_of(command),
        freed: 1,
        held: None,
    }
}

// A single code and the code after it: both in one pair, or the first alone and the command after it held.
#[tactic(auto, using(crate::proofs::Numbered::single_from, crate::proofs::Numbered::command_below))]
pub(crate) fn single_turn(first: u16, second: u16) -> Turn
    requires { 0x8000 ≤ first }
    ensures { result ≡ single_turn first second }
{
    let sent = byte_of(first);
    if is_single(second) {
        return Turn {
            pair: Pair(sent, byte_of(second)),
            freed: 2,
            held: None,
        };
    }
    let beside = if needs_backspace(second) { 0x20 } else { 0x80 };
    Turn {
        pair: Pair(sent, beside),
        freed: 2,
        held: Some(second),
    }
}

impl Queue {
    // What a pop would do: the held code goes out first of all, padding where nothing waits, and else the first code,
    // with the second where it may share the pair.
    #[tactic(auto, using(crate::proofs::Numbered::single_from, crate::proofs::Numbered::command_below, crate::proofs::Turns::held_turn, crate::proofs::Turns::empty_turn, crate::proofs::Turns::command_turns, crate::proofs::Turns::last_turns, crate::proofs::Turns::single_turns))]
    pub fn turn(&self) -> Turn
        ensures { result ≡ turn_in self.now }
    {
        if let Some(number) = self.held {
            return Turn {
                pair: pair_of(number),
                freed: 0,
                held: None,
            };
        }
        if self.waiting == 0 {
            return Turn {
                pair: Pair(0x80, 0x80),
                freed: 0,
                held: None,
            };
        }
        let start = self.start % PLACES;
        let first = self.places[start];
        if !is_single(first) {
            return command_turn(first);
        }
        if self.waiting == 1 {
            return Turn {
                pair: Pair(byte_of(first), 0x80),
                freed: 1,
                held: None,
            };
        }
        single_turn(first, self.places[(start + 1) % PLACES])
    }

    // Frees places at the front and sets what is held: of any state, well-formed or not. In place, so that a pop, a send
    // and a drain all move on by it, and none copies the ring for it.
    #[tactic(auto, using(crate::proofs::Turns::start_moved_on))]
    pub fn move_on(&mut self, freed: usize, held: Option<u16>)
        ensures { self.new ≡ moved_on self.old freed held }
    {
        self.start = (self.start % PLACES + freed % PLACES) % PLACES;
        self.waiting = self.waiting.saturating_sub(freed);
        self.held = held;
    }

    // The next pair for the line; 80 80 where nothing waits.
    #[tactic(auto, using(crate::proofs::Turns::refused_pop, crate::proofs::Turns::taken_by_turn))]
    pub fn pop(mut self) -> (Queue, Result<Pair, IllFormed>)
        ensures { pop_outcome result ≡ pop_ring self }
    {
        if !self.is_well_formed() {
            return (self, Err(IllFormed));
        }
        let turn = self.turn();
        self.move_on(turn.freed, turn.held);
        (self, Ok(turn.pair))
    }
}
