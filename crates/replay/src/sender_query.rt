// The queries of the sender. They ask one sender, which is kept from query to query; its queue answers the queue's queries.
ghost use Rattle.std.specs.Prelude.{◌≤◌};

use crate::from_bytes::bytes_at;
use crate::refusal::{Answer, NOT_A_QUERY, Refusal};
use crate::to_bytes::padded;
use crate::{from_bytes, queue_query, to_bytes};
use sender::Sender;

pub(crate) fn answer(sender: &mut Sender, asked: [u8; 16]) -> Answer {
    match asked[0] {
        0x40 => push(sender, asked),
        0x41 => send(sender),
        0x42 => n_codes(sender),
        0x43 => is_idle(sender),
        0x44..=0x46 => {
            set(sender, asked);
            Ok([0u8; 16])
        }
        0x47 => Ok(padded(&to_bytes::maybe_pair(sender.repeats.owed))),
        0x48 => Ok(drain(sender, asked)),
        _ => Err(NOT_A_QUERY),
    }
}

// Sets the owed pair, or makes the sender anew.
fn set(sender: &mut Sender, asked: [u8; 16]) {
    match asked[0] {
        0x44 => *sender = sender.reset(),
        0x45 => *sender = Sender::new(),
        _ => sender.repeats.owed = from_bytes::maybe_pair(bytes_at(&asked, 1)),
    }
}

fn push(sender: &mut Sender, asked: [u8; 16]) -> Answer {
    let (next, accepted) = sender.push(from_bytes::code(bytes_at(&asked, 1)));
    *sender = next;
    accepted?;
    Ok([0u8; 16])
}

fn send(sender: &mut Sender) -> Answer {
    let (next, pair) = sender.send();
    *sender = next;
    Ok(queue_query::pair_answer(pair?))
}

fn n_codes(sender: &Sender) -> Answer {
    Ok(queue_query::count_answer(sender.n_codes()?))
}

fn is_idle(sender: &Sender) -> Answer {
    Ok(padded(&[0, sender.is_idle()? as u8]))
}

// Seven bytes as a number, the lowest first, with the seventh once more as the eighth: the largest number is there too.
fn seven(asked: [u8; 16], at: usize) -> usize
    requires { at ≤ 9 }
{
    let mut bytes = [asked[at + 6]; 8];
    bytes[..7].copy_from_slice(&asked[at..at + 7]);
    usize::from_le_bytes(bytes)
}

// Lends the drain the first of fourteen bytes. All are shown after its answer's two, so that those it leaves alone show too.
fn drain(sender: &mut Sender, asked: [u8; 16]) -> [u8; 16] {
    let mut out = [
        0, 0, 0xE0, 0xE1, 0xE2, 0xE3, 0xE4, 0xE5, 0xE6, 0xE7, 0xE8, 0xE9, 0xEA, 0xEB, 0xEC, 0xED,
    ];
    let lent = (asked[1] % 15) as usize;
    let (next, sends) = sender.drain(&mut out[2..2 + lent], seven(asked, 2), seven(asked, 9));
    *sender = next;
    match sends {
        Ok(n) => out[1] = (n % 256) as u8,
        Err(e) => out[0] = Refusal::from(e).number,
    }
    out
}
