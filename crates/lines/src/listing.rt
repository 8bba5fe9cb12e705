// The listing's state, and what a piece of input does to it.
ghost use Rattle.std.specs.Prelude.{◌≡◌, ◌≤◌, ◌<◌, length};
ghost use Rattle.lines.specs.Listing.{most_pairs};
ghost use Rattle.lines.specs.Midway.{Between, Further, HasPair, Onward, ReadsOn};
ghost use Rattle.lines.specs.Pieces.{absorbed, after_pair, between_pairs, end_number, end_refusal, ended_by, ended_listing, fresh_listing, is_done, one_more, one_more_if, read_listing, read_outcome, with_line};
ghost use Rattle.lines.specs.Line.{Flushes};
ghost use Rattle.receiver.specs.Receiver.{step};

use crate::line::{LINE_LENGTH, Line};
use crate::put::Writer;
use crate::words::{put_last_line, put_line_of, put_refused_line};
use code::Pair;
use receiver::Cea608State;

// A stream has at most so many pairs; one byte more is refused 10.
pub const MOST_PAIRS: u32 = 16_777_216;

// By which refusal a stream ends: half a pair, 9, or more pairs than the limit, 10.
#[derive(Clone, Copy, Debug, PartialEq, Eq)]
pub enum EndError {
    HalfAPair = 9,
    TooManyPairs = 10,
}

impl EndError {
    // Its number in a line.
    pub fn number(self) -> u32
        ensures { result ≡ end_number self }
    {
        self as u32
    }
}

// How many pairs were read and refused, what is known of the stream, and the text that waits to be written. `half` is the
// first byte of a pair whose second has not come.
#[derive(Clone, Copy)]
pub struct Listing {
    pub receiver: Cea608State,
    pub half: Option<u8>,
    pub pairs: u32,
    pub refused: u32,
    pub ended: bool,
    pub line: Line,
}

// How many bytes of the input were taken, and how many of the output written.
#[derive(Clone, Copy)]
pub struct Progress {
    pub taken: usize,
    pub written: usize,
}

// One more in a count. Refusals come to at most one beyond the limit of pairs, and packets to no more than the pairs.
pub fn one_more(count: u32) -> u32
    ensures { result ≡ one_more count }
{
    if count <= MOST_PAIRS {
        return count + 1;
    }
    count
}

// The same where there is one more, and the count as it is where there is none.
pub fn one_more_if(one: bool, count: u32) -> u32
    ensures { result ≡ one_more_if one count }
{
    if one { one_more(count) } else { count }
}

// What refuses the end of a stream after so many pairs, if half a pair is left. At the limit that is too many: 10 comes
// before 9.
pub fn end_refusal(half: Option<u8>, pairs: u32) -> Option<EndError>
    ensures { result ≡ end_refusal half pairs }
{
    match half {
        None => None,
        Some(_) if pairs < MOST_PAIRS => Some(EndError::HalfAPair),
        Some(_) => Some(EndError::TooManyPairs),
    }
}

// The listing between two pairs, with nothing that waits.
pub(crate) fn between_pairs(receiver: Cea608State, pairs: u32, refused: u32) -> Listing
    ensures { result ≡ between_pairs receiver pairs refused }
{
    Listing {
        receiver,
        half: None,
        pairs,
        refused,
        ended: false,
        line: Line::new(),
    }
}

impl Listing {
    // Nothing read yet.
    pub fn new() -> Listing
        ensures { result ≡ fresh_listing }
    {
        between_pairs(Cea608State::new(), 0, 0)
    }

    // The stream ends, with the line of a refusal if there is one, and the last line. Both wait after what this line has.
    pub(crate) fn ended_by(self, refusal: Option<EndError>, mut line: Line) -> Listing
        ensures { result ≡ ended_by refusal self line }
    {
        let mut refused = self.refused;
        let mut out = Writer {
            at: line.len,
            out: &mut line.bytes,
        };
        if let Some(refusal) = refusal {
            put_refused_line(&mut out, self.pairs, refusal.number());
            refused = one_more(refused);
        }
        put_last_line(&mut out, self.pairs, refused);
        line.len = out.at;
        Listing {
            half: None,
            refused,
            ended: true,
            line,
            ..self
        }
    }

    // Lists a whole pair, and more as long as there are more and there is room for any line. Nothing else decodes or puts a
    // pair's line, so that the compiler has both inside the loop and keeps the receiver in registers.
    pub(crate) fn list_pairs(self, input: &[u8], from: usize, out: &mut Writer) -> (Listing, usize)
        requires { HasPair input.now from self.pairs out.old.out.now out.old.at }
        ensures { Onward input.now from self out.old result out.new }
    {
        let mut receiver = self.receiver;
        let mut pairs = self.pairs;
        let mut refused = self.refused;
        let mut taken = from;
        loop {
            let (next, heard) = receiver.decode(Pair(input[taken], input[taken + 1]));
            put_line_of(out, pairs, heard);
            refused = one_more_if(heard.is_err(), refused);
            receiver = next;
            pairs += 1;
            taken += 2;
            if input.len() - taken < 2 || out.room() < LINE_LENGTH || MOST_PAIRS <= pairs {
                break;
            }
        }
        (between_pairs(receiver, pairs, refused), taken)
    }

    // The listing after a whole pair, its line waiting. A state may have any count, so that the caller has tested it.
    pub(crate) fn after_pair(self, pair: Pair) -> Listing
        requires { self.pairs < most_pairs }
        ensures { result ≡ after_pair self (step self.receiver pair) }
    {
        let both = [pair.0, pair.1];
        let mut bytes = [0; LINE_LENGTH];
        let mut out = Writer {
            out: &mut bytes,
            at: 0,
        };
        let (listing, _) = self.list_pairs(&both, 0, &mut out);
        let len = out.at;
        Listing {
            ended: self.ended,
            line: Line { bytes, at: 0, len },
            ..listing
        }
    }

    // The listing after a byte, where nothing waits to be written.
    #[tactic(auto, unfolding(crate::specs::Pieces::absorbed))]
    pub(crate) fn absorb(self, byte: u8) -> Listing
        ensures { result ≡ absorbed self byte }
    {
        if MOST_PAIRS <= self.pairs {
            return self.ended_by(Some(EndError::TooManyPairs), Line::new());
        }
        match self.half {
            None => Listing {
                half: Some(byte),
                ..self
            },
            Some(first) => self.after_pair(Pair(first, byte)),
        }
    }

    // The end of the input: the last lines wait after what waits already.
    #[tactic(auto, using(crate::proofs::Ends::ended_so), unfolding(crate::specs::Pieces::ended_listing))]
    pub fn end(self) -> Listing
        ensures { result ≡ ended_listing self }
    {
        if self.ended {
            return self;
        }
        self.ended_by(end_refusal(self.half, self.pairs), self.line)
    }

    // Whether the last line has been written: no call takes or writes anything more.
    pub fn is_done(self) -> bool
        ensures { result ≡ is_done self }
    {
        self.ended && !self.line.has_more()
    }

    // Writes what waits, as far as there is room.
    pub(crate) fn flush(self, out: &mut Writer) -> Listing
        ensures flushes { Flushes self.line out.old result.line out.new }
        ensures leaves { result ≡ with_line self result.line }
    {
        Listing {
            line: self.line.flush(out),
            ..self
        }
    }

    // Takes whole pairs and writes their lines straight into the output, as long as there is room for any line. Nothing
    // waits before it or after it.
    pub(crate) fn read_pairs(self, input: &[u8], from: usize, out: &mut Writer) -> (Listing, usize)
        requires { Between input.now from self out.old.out.now out.old.at }
        ensures { Further input.now from self out.old result out.new }
    {
        if self.half.is_none()
            && 2 <= input.len() - from
            && LINE_LENGTH <= out.room()
            && self.pairs < MOST_PAIRS
        {
            return self.list_pairs(input, from, out);
        }
        (self, from)
    }

    // Takes bytes of the input and writes text into the output, as far as there is room.
    pub(crate) fn read_into(self, input: &[u8], out: &mut Writer) -> (Listing, usize)
        requires { out.old.at ≤ length out.old.out.now }
        ensures { ReadsOn input.now self out.old result out.new }
    {
        let mut listing = self;
        let mut taken = 0;
        // A turn takes a byte, or many pairs.
        while taken < input.len() {
            listing = listing.flush(out);
            if listing.line.has_more() || listing.ended {
                return (listing, taken);
            }
            (listing, taken) = listing.read_pairs(input, taken, out);
            if taken < input.len() {
                listing = listing.absorb(input[taken]);
                taken += 1;
            }
        }
        (listing.flush(out), taken)
    }

    // Takes bytes of the input and writes text into the output, as far as there is room. What waits goes first, and while
    // some of it has no room no byte is taken.
    //
    // A loop offers again what was not taken, with room for a byte at least, until the input is over; then it calls `end`, and
    // `read` with no input. `is_done` ends it. Past the limit of pairs the listing ends by itself: after the byte that is
    // refused 10 nothing more is taken, however often it is offered, so a loop that waits for its input to be taken would
    // never end.
    pub fn read(self, input: &[u8], output: &mut [u8]) -> (Listing, Progress)
        ensures { read_outcome result output.new ≡ read_listing self input.now output.old }
    {
        let mut out = Writer { out: output, at: 0 };
        let (listing, taken) = self.read_into(input, &mut out);
        let written = out.at;
        (listing, Progress { taken, written })
    }
}
