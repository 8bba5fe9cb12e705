// Which codes may be queued, and the number of each that may.
ghost use Rattle.std.specs.Prelude.{◌≡◌, ◌≤◌};
ghost use Rattle.queue.specs.Entry.{number_outcome, verdict_outcome};
ghost use Rattle.queue.specs.Number.{field_number, numbered, numbered_control, numbered_unknown, whose_number};
ghost use Rattle.queue.specs.declared.queueable.QueueableError.TheVariants.{NoSuchRow as no_such_row};

use crate::number::bytes_number;
use code::{Code, Control, ControlCode, Field, NoSuchRow, Pair};

// Why a code may not be queued: `UnknownByte` is refusal 2, `NoSuchRow` refusal 3, `NotACommand` refusal 18.
#[derive(Clone, Copy, Debug, PartialEq, Eq)]
pub(crate) enum QueueableError {
    UnknownByte,
    NoSuchRow,
    NotACommand,
}

impl From<NoSuchRow> for QueueableError {
    ghost from_gives = { λ _ e. e ≡ no_such_row };

    fn from(_e: NoSuchRow) -> QueueableError {
        QueueableError::NoSuchRow
    }
}

// The part of a command's number that its field makes.
fn field_number(field: Option<Field>) -> u16
    ensures { result ≡ field_number field }
{
    match field {
        None => 0,
        Some(Field(true)) => 0x2000,
        Some(Field(false)) => 0x4000,
    }
}

// The part that its field and its channel make.
fn whose_number(code: ControlCode) -> u16
    ensures { result ≡ whose_number code }
{
    let number = field_number(code.field);
    if code.channel.0 {
        number
    } else {
        number + 0x1000
    }
}

// An `Unknown` of two bytes. Where its first byte is not 10 to 1F it is text dressed as a command.
#[tactic(auto, using(crate::proofs::Verdicts::dressed, crate::proofs::Verdicts::passes))]
fn number_unknown(whose: u16, first: u8, second: u8) -> Result<u16, QueueableError>
    requires { whose ≤ 0x5000 }
    ensures { number_outcome result ≡ numbered_unknown whose first second }
{
    if 0x80 <= first || 0x80 <= second {
        return Err(QueueableError::UnknownByte);
    }
    if first / 16 != 1 {
        return Err(QueueableError::NotACommand);
    }
    Ok(whose + 0x800 + bytes_number(Pair(first, second)))
}

// A control. Each kind by itself and not by `Control::bytes`: the compiler then keeps the control in registers.
#[tactic(auto, using(crate::proofs::Verdicts::as_tested), unfolding(code::specs::Write::control_bytes))]
fn number_control(whose: u16, control: Control) -> Result<u16, QueueableError>
    requires { whose ≤ 0x5000 }
    ensures { number_outcome result ≡ numbered_control whose control }
{
    match control {
        Control::MidRow(code) => Ok(whose + bytes_number(code.bytes())),
        Control::Symbol(symbol) => Ok(whose + bytes_number(symbol.bytes())),
        Control::Command(command) => Ok(whose + bytes_number(command.bytes())),
        Control::Tab(tab) => Ok(whose + bytes_number(tab.bytes())),
        Control::Preamble(preamble) => Ok(whose + bytes_number(preamble.bytes()?)),
        Control::Unknown(first, second) => number_unknown(whose, first, second),
    }
}

// The number of a code that may be queued; none for NUL, which is not stored.
#[tactic(auto, using(crate::proofs::Verdicts::nul_passes, crate::proofs::Verdicts::letter_passes, crate::proofs::Verdicts::byte_passes))]
pub(crate) fn numbered(code: Code) -> Result<Option<u16>, QueueableError>
    ensures { verdict_outcome result ≡ numbered code }
{
    match code {
        Code::Nul => Ok(None),
        Code::Control(command) => number_control(whose_number(command), command.control).map(Some),
        Code::Letter(letter) => Ok(Some(0x8020 + letter.place() as u16)),
        Code::Unknown(byte) => {
            if byte < 0x80 {
                Ok(Some(0x8080 + byte as u16))
            } else {
                Err(QueueableError::UnknownByte)
            }
        }
    }
}
