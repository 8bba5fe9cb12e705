// Which layer a query asks, and what is kept from one query to the next.
use crate::extended_query::Kept;
use crate::refusal::{Answer, NOT_A_QUERY, Refusal};
use crate::{code_query, event_query, extended_query, queue_query, receiver_query, sender_query};
use receiver::Cea608State;
use sender::Sender;

// What queries change and later queries ask.
#[derive(Clone, Copy)]
pub(crate) struct State {
    pub receiver: Cea608State,
    pub sender: Sender,
    pub extended: Kept,
}

impl State {
    // The state before the first query.
    pub(crate) fn new() -> State {
        State {
            receiver: Cea608State::new(),
            sender: Sender::new(),
            extended: Kept::new(),
        }
    }

    // The sixteen bytes of an answer.
    pub(crate) fn answer(&mut self, asked: [u8; 16]) -> [u8; 16] {
        self.ask(asked).unwrap_or_else(Refusal::bytes)
    }

    // The first byte of a query is its kind, in the format of docs/TESTING.md.
    fn ask(&mut self, asked: [u8; 16]) -> Answer {
        match asked[0] {
            0x00..=0x1F => code_query::answer(asked),
            0x20..=0x27 => event_query::answer(asked),
            0x28..=0x2F => receiver_query::answer(&mut self.receiver, asked),
            0x30..=0x3F => queue_query::answer(&mut self.sender.queue, asked),
            0x40..=0x4F => sender_query::answer(&mut self.sender, asked),
            0x50..=0x5F => extended_query::answer(&mut self.extended, asked),
            _ => Err(NOT_A_QUERY),
        }
    }
}
