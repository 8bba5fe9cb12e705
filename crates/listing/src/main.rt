// Lists byte pairs, one line an event (docs/LISTING.md): of each FILE, or of standard input.
//
// Where a file cannot be opened, or a read or a write fails, standard error says so and the program stops. The listing that
// it was in then has no last line, and no later file is listed.
#![tactic(auto)]

ghost use Rattle.lines.specs.Listing.{listing};
ghost use Rattle.listing.specs.Blocks.{after_block, block_text, done, fresh};
ghost use Rattle.listing.specs.Laws.{any_cutting, ends_done, stays_done};

use lines::Listing;
use std::io;
use std::io::Write;
use streams::{BLOCK, Lister};

// The listing of a stream of pairs.
#[derive(Clone, Copy)]
struct Pairs(Listing);

impl Lister for Pairs {
    const PROGRAM: &'static [u8] = b"listing: ";

    ghost fresh = { fresh };

    ghost after_block = { after_block };

    ghost block_text = { block_text };

    ghost listing = { listing };

    ghost done = { done };

    fn new() -> Pairs {
        Pairs(Listing::new())
    }

    fn is_done(self) -> bool {
        self.0.is_done()
    }

    // How many bytes a call takes it says only afterwards, so no `for` goes over them. An output that is not full has all that
    // there is to say.
    fn list<W: Write>(
        self,
        block: &[u8],
        buffer: &mut [u8; BLOCK],
        output: &mut W,
    ) -> io::Result<Pairs> {
        let mut listing = if block.is_empty() {
            self.0.end()
        } else {
            self.0
        };
        let mut rest = block;
        loop {
            let (next, progress) = listing.read(rest, buffer);
            output.write_all(&buffer[..progress.written])?;
            listing = next;
            rest = &rest[progress.taken..];
            if progress.written < buffer.len() {
                return Ok(Pairs(listing));
            }
        }
    }

    ghost any_cutting = { any_cutting };

    ghost ends_done = { ends_done };

    ghost stays_done = { stays_done };
}

fn main(rt: HostRuntime) {
    Pairs::list_all(&rt);
}
