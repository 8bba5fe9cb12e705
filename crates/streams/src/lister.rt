// A listing of any kind, and the way through the files that it lists.
ghost use Rattle.std.specs.Prelude.{◌≡◌, ℕ, List, Bool, true, IfOk, OnOk};
ghost use Rattle.std.specs.Io.KnownBytes.{Appends};
ghost use Rattle.streams.specs.AfterRead.{AfterRead, read_text};
ghost use Rattle.streams.specs.Blocks.{EndsDone, IsAnyCutting, ListsAll, StaysDone};

use crate::system::{NAME_ROOM, Source, open, report, too_long};
use std::io;
use std::io::{ErrorKind, Read, Write, writer};

// The size of a block.
pub const BLOCK: usize = 65_536;

// Why a stream is not listed to its end: the input cannot be opened or read, a write failed, or there were more turns than
// a run can have.
#[derive(Clone, Copy, Debug)]
pub enum Failure {
    Input(io::Error),
    Output(io::Error),
    Endless,
}

// The state of a listing, by value. It takes a stream in blocks, and writes the lines of each before the next.
pub trait Lister: Copy {
    // What the program says of a failure begins with this, as `listing: `.
    const PROGRAM: &'static [u8];

    // The state of a stream of which nothing is read yet; the state after a block of it, and what is written of the block;
    // and whether no more is listed. A block of no bytes is the end.
    ghost fresh: { Self };

    ghost after_block: { Self → List ℕ → Self };

    ghost block_text: { Self → List ℕ → List ℕ };

    // The text of a whole stream.
    ghost listing: { List ℕ → List ℕ };

    ghost done: { Self → Bool };

    fn new() -> Self
        ensures { result ≡ fresh };

    // Whether the last line has been written.
    fn is_done(self) -> bool
        ensures { result ≡ done self };

    // Writes what waits and the lines of a block, by way of the buffer; the last lines, where the block has no bytes.
    fn list<W: Write>(
        self,
        block: &[u8],
        buffer: &mut [u8; BLOCK],
        output: &mut W,
    ) -> io::Result<Self>
        ensures leaves { IfOk result (λ next. next ≡ after_block self block.now) }
        ensures writes { OnOk result (Appends (W.contents output.old) (W.contents output.new) (block_text self block.now)) };

    // A stream has the same text in whatever blocks it comes; after the end it is done; and then no more is written.
    ghost any_cutting: { IsAnyCutting after_block block_text fresh listing };

    ghost ends_done: { EndsDone after_block done };

    ghost stays_done: { StaysDone after_block block_text done };

    // The listing after a read that answered so. No bytes are the end of the stream; after a read that a signal interrupted
    // the listing is as it was, so that it is made again.
    final fn after_read<W: Write>(
        self,
        read: io::Result<usize>,
        input: &[u8],
        buffer: &mut [u8; BLOCK],
        output: &mut W,
    ) -> Result<Self, Failure>
        ensures leaves { AfterRead after_block self read input.now result }
        ensures writes { OnOk result (Appends (W.contents output.old) (W.contents output.new) (read_text block_text self read input.now)) }
    {
        match read {
            Ok(count) => self
                .list(&input[..count.min(input.len())], buffer, output)
                .map_err(Failure::Output),
            Err(e) if e.kind() == ErrorKind::Interrupted => Ok(self),
            Err(e) => Err(Failure::Input(e)),
        }
    }

    // Lists all that a stream has. A read takes what there is, as much as there is room for, and its lines are written before
    // the next, so that those of a live stream do not wait. A proved loop has to end, and nothing says that a stream does. So
    // the turns are counted, up to a number that no run reaches.
    final fn list_stream<R: Read, W: Write>(
        from: &mut R,
        input: &mut [u8; BLOCK],
        buffer: &mut [u8; BLOCK],
        output: &mut W,
    ) -> Result<Self, Failure>
        ensures done { IfOk result (λ last. done last ≡ true) }
        ensures lists_all { IfOk result (λ last. ListsAll listing (R.remaining from.old) (W.contents output.old) (W.contents output.new)) }
    {
        let mut listing = Self::new();
        for _ in 0..u64::MAX {
            let read = from.read(input);
            listing = listing.after_read(read, input, buffer, output)?;
            if listing.is_done() {
                return Ok(listing);
            }
        }
        Err(Failure::Endless)
    }

    // Lists each file that an argument names, or standard input where there is no argument, until one is not listed whole;
    // what failed of that one is said.
    final fn list_all(rt: &HostRuntime) {
        let mut input = [0u8; BLOCK];
        let mut buffer = [0u8; BLOCK];
        let mut name = [0u8; NAME_ROOM];
        for word in 1..usize::MAX {
            let Some(source) = Source::of_argument(rt, word, &mut name) else {
                return;
            };
            if let Err(failure) = list_source::<Self>(rt, source, &mut input, &mut buffer) {
                report(rt, Self::PROGRAM, source.name(), failure);
                return;
            }
        }
    }
}

// Lists what an argument names. What prints gives up on an output whose every write is interrupted, and a plain `Write` does
// not, so the output is written through `writer`.
fn list_source<L: Lister>(
    rt: &HostRuntime,
    source: Source,
    input: &mut [u8; BLOCK],
    buffer: &mut [u8; BLOCK],
) -> Result<L, Failure> {
    match source {
        Source::Input => L::list_stream(&mut rt.stdin(), input, buffer, &mut writer(&rt.stdout())),
        Source::File(name) => {
            let mut file = open(rt, name).map_err(Failure::Input)?;
            L::list_stream(&mut file, input, buffer, &mut writer(&rt.stdout()))
        }
        Source::Nameless => Err(Failure::Input(too_long())),
    }
}
