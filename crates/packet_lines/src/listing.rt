// The state of a listing of packets, and what a piece of input does to it.
ghost use Rattle.std.specs.Prelude.{◌≡◌, ◌<◌};
ghost use Rattle.extended.specs.State.{given_outcome, report_of, step};
ghost use Rattle.lines.specs.Listing.{most_pairs};
ghost use Rattle.packet_lines.specs.Pieces.{Says, counted, end_packets, ended_by, fresh_listing, is_done, of_byte, of_pair, read_outcome, read_packets, stops};

use crate::words::{put_last_line, put_line_of};
use code::Pair;
use extended::{ExtendedError, ExtendedState, Given};
use lines::listing::{EndError, MOST_PAIRS, end_refusal, one_more, one_more_if};
use lines::words::put_refused_line;
use lines::{Progress, Writer};

// A byte is taken only where the output has so much room: every line fits into it, and the last two together.
pub const ROOM: usize = 128;

// How many pairs were read, packets finished and pairs refused, and what is known of the stream. `half` is the first byte of a
// pair whose second has not come. Nothing waits in it.
#[derive(Clone, Copy)]
pub struct PacketListing {
    pub state: ExtendedState,
    pub half: Option<u8>,
    pub pairs: u32,
    pub packets: u32,
    pub refused: u32,
    pub ended: bool,
}

impl PacketListing {
    // Nothing read yet.
    pub fn new() -> PacketListing
        ensures { result ≡ fresh_listing }
    {
        PacketListing {
            state: ExtendedState::new(),
            half: None,
            pairs: 0,
            packets: 0,
            refused: 0,
            ended: false,
        }
    }

    // Whether the last line has been written: no call takes or writes anything more.
    pub fn is_done(self) -> bool
        ensures { result ≡ is_done self }
    {
        self.ended
    }

    // Whether no byte is taken where there is so much room.
    pub(crate) fn stops(&self, room: usize) -> bool
        ensures { result ≡ stops self.now room }
    {
        self.ended || room < ROOM
    }

    // The stream ends: writes the line of a refusal, if there is one, and the last line.
    pub(crate) fn end_by(&mut self, refusal: Option<EndError>, out: &mut Writer)
        ensures { Says (ended_by refusal self.old) out.old self.new out.new }
    {
        let mut refused = self.refused;
        if let Some(refusal) = refusal {
            put_refused_line(out, self.pairs, refusal.number());
            refused = one_more(refused);
        }
        put_last_line(out, self.pairs, self.packets, refused);
        self.half = None;
        self.refused = refused;
        self.ended = true;
    }

    // Counts a whole pair that left this state and gave this.
    pub(crate) fn count(
        &mut self,
        state: ExtendedState,
        answer: Result<Option<Given>, ExtendedError>,
    )
        requires { self.old.pairs < most_pairs }
        ensures { self.new ≡ counted self.old state (report_of (given_outcome answer)) }
    {
        self.state = state;
        self.half = None;
        self.pairs += 1;
        self.packets = one_more_if(matches!(answer, Ok(Some(Given::Packet(_)))), self.packets);
        self.refused = one_more_if(answer.is_err(), self.refused);
    }

    // Takes a whole pair. A state may have any count, so that the caller has tested it.
    pub(crate) fn take_pair(&mut self, pair: Pair, out: &mut Writer)
        requires { self.old.pairs < most_pairs }
        ensures { Says (of_pair self.old (step self.old.state pair)) out.old self.new out.new }
    {
        let (next, answer) = self.state.decode(pair);
        put_line_of(out, self.pairs, answer);
        self.count(next, answer);
    }

    // Takes a byte, where there is room for any text that it can make. In place: a state has some 270 bytes, and the first byte
    // of a pair changes two of them.
    #[tactic(auto, unfolding(crate::specs::Pieces::of_byte))]
    pub(crate) fn absorb(&mut self, byte: u8, out: &mut Writer)
        ensures { Says (of_byte self.old byte) out.old self.new out.new }
    {
        if MOST_PAIRS <= self.pairs {
            self.end_by(Some(EndError::TooManyPairs), out);
            return;
        }
        match self.half {
            None => self.half = Some(byte),
            Some(first) => self.take_pair(Pair(first, byte), out),
        }
    }

    // Takes bytes of the input, and writes the lines that they make into the output. A byte is taken as long as the output
    // has `ROOM` bytes left, so with as many at the start a call takes one at least, unless the listing has ended.
    //
    // A loop offers again what was not taken, until the input is over; then it calls `end`. Past the limit of pairs the
    // listing ends by itself: after the byte that is refused 10 nothing more is taken, however often it is offered, so a loop
    // has to ask `is_done` too.
    pub fn read(self, input: &[u8], output: &mut [u8]) -> (PacketListing, Progress)
        ensures { read_outcome result output.new ≡ read_packets self input.now output.old }
    {
        let mut listing = self;
        let mut taken = 0;
        let mut out = Writer { out: output, at: 0 };
        for &byte in input {
            if listing.stops(out.room()) {
                break;
            }
            listing.absorb(byte, &mut out);
            taken += 1;
        }
        let written = out.at;
        (listing, Progress { taken, written })
    }

    // The end of the input: writes the last lines, where the output has `ROOM` bytes and the listing has not ended. Otherwise
    // it writes nothing, and the listing is as it was.
    pub fn end(self, output: &mut [u8]) -> (PacketListing, Progress)
        ensures { read_outcome result output.new ≡ end_packets self output.old }
    {
        if self.stops(output.len()) {
            return (
                self,
                Progress {
                    taken: 0,
                    written: 0,
                },
            );
        }
        let mut out = Writer { out: output, at: 0 };
        let mut listing = self;
        listing.end_by(end_refusal(self.half, self.pairs), &mut out);
        let written = out.at;
        (listing, Progress { taken: 0, written })
    }
}
