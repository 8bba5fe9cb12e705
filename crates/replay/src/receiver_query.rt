// The queries of the receiver. One receiver is kept from query to query.
use crate::refusal::{Answer, NOT_A_QUERY, Refusal};
use crate::{event_bytes, to_bytes};
use code::Pair;
use receiver::Cea608State;

pub(crate) fn answer(receiver: &mut Cea608State, asked: [u8; 16]) -> Answer {
    match asked[0] {
        0x28 => {
            *receiver = receiver.reset();
            Ok([0u8; 16])
        }
        0x29 => Ok(decode(receiver, Pair(asked[1], asked[2]))),
        _ => Err(NOT_A_QUERY),
    }
}

// The last byte has the field that a command named last, also after a refusal.
fn decode(receiver: &mut Cea608State, pair: Pair) -> [u8; 16] {
    let (next, heard) = receiver.decode(pair);
    *receiver = next;
    let mut out = match heard {
        Ok(Some(e)) => event_bytes::event_answer(e),
        Ok(None) => [0u8; 16],
        Err(e) => Refusal::from(e).bytes(),
    };
    out[15] = to_bytes::field(next.last_received_field());
    out
}
