// The presentation modes: how captions appear on the screen.
ghost use Rattle.std.specs.Prelude.{◌≡◌};
ghost use Rattle.event.specs.Mode.{is_rollup, rollup_rows, command_of, mode_of};

use code::Command;

#[derive(Clone, Copy, Debug, PartialEq, Eq)]
pub enum Mode {
    // Captions are loaded out of sight and shown all at once.
    PopOn,
    // Captions are shown as received.
    PaintOn,
    // Captions are written into the bottom one of two rows, which scroll up at each carriage return.
    RollUp2,
    // The same with three rows.
    RollUp3,
    // The same with four rows.
    RollUp4,
}

impl Mode {
    // The mode that a command begins, where it begins one.
    #[tactic(auto, unfolding(crate::specs::Mode::mode_of))]
    pub fn from_command(command: Command) -> Option<Mode>
        ensures { result ≡ mode_of command }
    {
        match command {
            Command::ResumeCaptionLoading => Some(Mode::PopOn),
            Command::RollUp2 => Some(Mode::RollUp2),
            Command::RollUp3 => Some(Mode::RollUp3),
            Command::RollUp4 => Some(Mode::RollUp4),
            Command::ResumeDirectionCaptioning => Some(Mode::PaintOn),
            _ => None,
        }
    }

    // The command that begins the mode.
    pub fn command(self) -> Command
        ensures { result ≡ command_of self }
    {
        match self {
            Mode::PopOn => Command::ResumeCaptionLoading,
            Mode::PaintOn => Command::ResumeDirectionCaptioning,
            Mode::RollUp2 => Command::RollUp2,
            Mode::RollUp3 => Command::RollUp3,
            Mode::RollUp4 => Command::RollUp4,
        }
    }

    // Whether a carriage return scrolls the captions.
    pub fn is_rollup(self) -> bool
        ensures { result ≡ is_rollup self }
    {
        self.rollup_rows().is_some()
    }

    // The rows of the roll-up window; the other modes have none.
    pub fn rollup_rows(self) -> Option<u8>
        ensures { result ≡ rollup_rows self }
    {
        match self {
            Mode::PopOn | Mode::PaintOn => None,
            Mode::RollUp2 => Some(2),
            Mode::RollUp3 => Some(3),
            Mode::RollUp4 => Some(4),
        }
    }
}
