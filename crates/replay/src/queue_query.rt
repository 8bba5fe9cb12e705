// The queries of the queue. They ask one queue, which is kept from query to query: the sender's.
use crate::from_bytes::{self, bytes_at};
use crate::refusal::{Answer, NOT_A_QUERY};
use crate::to_bytes::padded;
use code::Pair;
use queue::Queue;

pub(crate) fn answer(queue: &mut Queue, asked: [u8; 16]) -> Answer {
    match asked[0] {
        0x30 => push(queue, asked),
        0x31 => pop(queue),
        0x32 => n_codes(queue),
        0x33..=0x38 => {
            set(queue, asked);
            Ok([0u8; 16])
        }
        0x39 => Ok(numbers(queue)),
        0x3A => Ok(number_after(0, queue.places[(asked[1] % 64) as usize])),
        0x3B => Ok(held(queue)),
        _ => Err(NOT_A_QUERY),
    }
}

// Sets a piece of the queue, or makes it anew.
fn set(queue: &mut Queue, asked: [u8; 16]) {
    match asked[0] {
        0x33 => *queue = queue.reset(),
        0x34 => *queue = Queue::new(),
        0x35 => queue.start = usize::from_le_bytes(bytes_at(&asked, 1)),
        0x36 => queue.waiting = usize::from_le_bytes(bytes_at(&asked, 1)),
        0x37 => queue.places[(asked[3] % 64) as usize] = u16::from_le_bytes([asked[1], asked[2]]),
        _ => {
            let number = u16::from_le_bytes([asked[1], asked[2]]);
            queue.held = (asked[3] == 1).then_some(number);
        }
    }
}

fn push(queue: &mut Queue, asked: [u8; 16]) -> Answer {
    let (next, accepted) = queue.push(from_bytes::code(bytes_at(&asked, 1)));
    *queue = next;
    accepted?;
    Ok([0u8; 16])
}

fn pop(queue: &mut Queue) -> Answer {
    let (next, pair) = queue.pop();
    *queue = next;
    Ok(pair_answer(pair?))
}

pub(crate) fn pair_answer(pair: Pair) -> [u8; 16] {
    padded(&[0, pair.0, pair.1])
}

fn n_codes(queue: &Queue) -> Answer {
    Ok(count_answer(queue.n_codes()?))
}

// A number's eight bytes, the lowest first, after a first byte of 0.
pub(crate) fn count_answer(count: usize) -> [u8; 16] {
    let mut out = [0u8; 16];
    out[1..9].copy_from_slice(&count.to_le_bytes());
    out
}

// Start and waiting, eight bytes each.
fn numbers(queue: &Queue) -> [u8; 16] {
    let mut out = [0u8; 16];
    out[..8].copy_from_slice(&queue.start.to_le_bytes());
    out[8..].copy_from_slice(&queue.waiting.to_le_bytes());
    out
}

// A number's two bytes, the lower first, after a first byte.
fn number_after(first: u8, number: u16) -> [u8; 16] {
    let [low, high] = number.to_le_bytes();
    padded(&[first, low, high])
}

fn held(queue: &Queue) -> [u8; 16] {
    number_after(queue.held.is_some() as u8, queue.held.unwrap_or(0))
}
