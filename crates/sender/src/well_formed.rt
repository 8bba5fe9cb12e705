// Whether a state that was handed in meets the clauses of refusal 12.
ghost use Rattle.std.specs.Prelude.{◌≡◌};
ghost use Rattle.sender.specs.Sender.{repeats_fit, may_be_owed, well_formed};
ghost use Rattle.code.specs.Read.{is_command_pair};

use crate::sender::{Repeats, Sender};
use code::Pair;
use code::parity::{check_odd_parity, strip_parity};

// Whether a receiver reads the pair as a command: its first byte is 10 to 1F.
pub(crate) fn is_command(pair: Pair) -> bool
    ensures { result ≡ is_command_pair pair }
{
    matches!(strip_parity(pair.0), 0x10..=0x1F)
}

// Whether a pair may be owed: a command pair of odd parity.
pub(crate) fn may_be_owed(pair: Pair) -> bool
    ensures { result ≡ may_be_owed pair }
{
    check_odd_parity(pair.0) && check_odd_parity(pair.1) && is_command(pair)
}

impl Repeats {
    // Whether nothing is owed, or a pair that may be.
    pub(crate) fn is_well_formed(self) -> bool
        ensures { result ≡ repeats_fit self }
    {
        self.owed.is_none_or(may_be_owed)
    }
}

impl Sender {
    // Whether refusal 12 does not apply.
    #[tactic(auto, unfolding(crate::specs::Sender::well_formed))]
    pub fn is_well_formed(&self) -> bool
        ensures { result ≡ well_formed self.now }
    {
        self.queue.is_well_formed() && self.repeats.is_well_formed()
    }
}
