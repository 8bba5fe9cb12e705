// The number that stands for a code at a place of the ring. A command's number has its two bytes, its channel, its field
// and whether it is an `Unknown`; a single code's has its byte, and whether it is an `Unknown`. Every number of 16 bits
// stands for a code that may wait, so that no place needs a test, and a pair is made from the number alone.
ghost use Rattle.std.specs.Prelude.{◌≡◌, ◌≤◌, ◌<◌};
ghost use Rattle.code.specs.Code.{needs_backspace};
ghost use Rattle.queue.specs.Number.{bytes_number, channel_of_number, code_of, field_of_number, first_in, second_in};
ghost use Rattle.queue.specs.Queue.{byte_of, is_single, pair_of};

use code::parity::add_parity;
use code::write::on_line;
use code::{Channel, Field, Pair};

// The number of a command's two bytes, channel and field aside.
pub(crate) fn bytes_number(bytes: Pair) -> u16
    ensures { result ≡ bytes_number bytes }
{
    bytes.0 as u16 % 16 * 128 + bytes.1 as u16 % 128
}

// Whether a number stands for a single code.
#[tactic(auto, using(crate::proofs::Numbered::length_told))]
pub(crate) fn is_single(number: u16) -> bool
    ensures { result ≡ is_single (code_of number) }
{
    0x8000 <= number
}

// The first byte of a command, channel and field aside.
fn first_in(number: u16) -> u8
    ensures { result ≡ first_in number }
{
    0x10 + (number / 128 % 16) as u8
}

// The second byte of a command, or the byte of a single code.
fn second_in(number: u16) -> u8
    ensures { result ≡ second_in number }
{
    (number % 128) as u8
}

// The field that a command names.
fn field_in(number: u16) -> Option<Field>
    ensures { result ≡ field_of_number number }
{
    match number / 0x2000 {
        1 => Some(Field::ONE),
        2 => Some(Field::TWO),
        _ => None,
    }
}

// The channel that a command is for.
fn channel_in(number: u16) -> Channel
    ensures { result ≡ channel_of_number number }
{
    if number / 0x1000 % 2 == 0 {
        Channel::ONE
    } else {
        Channel::TWO
    }
}

// The byte of a single code as it is sent.
#[tactic(auto, using(crate::proofs::Numbered::single_of_number))]
pub(crate) fn byte_of(number: u16) -> u8
    requires { 0x8000 ≤ number }
    ensures { result ≡ byte_of (code_of number) }
{
    add_parity(second_in(number))
}

// The pair that a code is sent as.
#[tactic(auto, using(crate::proofs::Numbered::single_from, crate::proofs::Numbered::command_below, crate::proofs::Numbered::command_of_number_lem, crate::proofs::Numbered::single_of_number))]
pub(crate) fn pair_of(number: u16) -> Pair
    ensures { result ≡ pair_of (code_of number) }
{
    if is_single(number) {
        return Pair(byte_of(number), 0x80);
    }
    on_line(
        field_in(number),
        channel_in(number),
        Pair(first_in(number), second_in(number)),
    )
}

// Whether the queue puts a space before a command: before 11 20 to 11 2F, 12 20 to 12 3F and 13 20 to 13 3F, where they
// are no `Unknown`. Each by an arm of its own: the compiler then makes one test of them, and of an or-pattern several.
#[tactic(auto, using(crate::proofs::Numbered::backspace_told))]
pub(crate) fn needs_backspace(number: u16) -> bool
    requires { number < 0x8000 }
    ensures { result ≡ needs_backspace (code_of number) }
{
    match number % 0x1000 / 16 {
        0x0A => true,
        0x12 => true,
        0x13 => true,
        0x1A => true,
        0x1B => true,
        _ => false,
    }
}
