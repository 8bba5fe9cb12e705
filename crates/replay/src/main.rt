// Answers queries (docs/TESTING.md), so that what is proved can be compared with the Rust crate by running.
#![tactic(auto)]

mod code_query;
mod event_bytes;
mod event_query;
mod extended_query;
mod from_bytes;
mod query;
mod queue_query;
mod receiver_query;
mod refusal;
mod sender_query;
mod to_bytes;

ghost use Rattle.std.specs.Prelude.{◌≤◌, length};

use crate::query::State;
use std::io::{Read, Stdin, Write};

// The size of a block: so many whole queries.
const BLOCK: usize = 65_536;

// A proved loop has to end, and nothing says that the input does. So the blocks are counted, up to a number that no run
// reaches.
fn main(rt: HostRuntime) {
    let mut input = [0u8; BLOCK];
    let mut output = [0u8; BLOCK];
    let mut state = State::new();
    for _ in 0..u64::MAX {
        if !answer_block(&rt, &mut input, &mut output, &mut state) {
            break;
        }
    }
}

// Reads as much as there is room for and answers each whole query. Says whether there may be more.
fn answer_block(
    rt: &HostRuntime,
    input: &mut [u8; BLOCK],
    output: &mut [u8; BLOCK],
    state: &mut State,
) -> bool {
    let got = read_full(&mut rt.stdin(), input);
    let (queries, _) = input[..got].as_chunks::<16>();
    let (answers, _) = output.as_chunks_mut::<16>();
    for (answer, query) in answers.iter_mut().zip(queries) {
        *answer = state.answer(*query);
    }
    let whole = got / 16 * 16;
    rt.stdout().write_all(&output[..whole]).is_ok() && got == BLOCK
}

// Reads until the block is full, the input ends or a read fails, and answers how many bytes there are.
fn read_full(from: &mut Stdin, input: &mut [u8]) -> usize
    ensures { result ≤ length input.new }
{
    let mut got = 0;
    // A `while`, since a read gives as many bytes as there are at the time.
    while got < input.len() {
        match from.read(&mut input[got..]) {
            Ok(0) | Err(_) => break,
            Ok(count) => got += count,
        }
    }
    got
}
