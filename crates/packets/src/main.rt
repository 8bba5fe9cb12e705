// Lists the packets of extended data in byte pairs, a line each: of each FILE, or of standard input.
//
// Where a file cannot be opened, or a read or a write fails, standard error says so and the program stops. The listing that
// it was in then has no last line, and no later file is listed.
#![tactic(auto)]

ghost use Rattle.packet_lines.specs.Packets.{packet_lines};
ghost use Rattle.packets.specs.Blocks.{after_block, block_text, done, fresh};
ghost use Rattle.packets.specs.Laws.{any_cutting, ends_done, stays_done};

use packet_lines::PacketListing;
use std::io;
use std::io::Write;
use streams::{BLOCK, Lister};

// The listing of the packets in a stream.
#[derive(Clone, Copy)]
struct Packets(PacketListing);

impl Lister for Packets {
    const PROGRAM: &'static [u8] = b"packets: ";

    ghost fresh = { fresh };

    ghost after_block = { after_block };

    ghost block_text = { block_text };

    ghost listing = { packet_lines };

    ghost done = { done };

    fn new() -> Packets {
        Packets(PacketListing::new())
    }

    fn is_done(self) -> bool {
        self.0.is_done()
    }

    // How many bytes a call takes it says only afterwards, so no `for` goes over them.
    fn list<W: Write>(
        self,
        block: &[u8],
        buffer: &mut [u8; BLOCK],
        output: &mut W,
    ) -> io::Result<Packets> {
        let mut listing = self.0;
        if block.is_empty() {
            let (next, progress) = listing.end(buffer);
            output.write_all(&buffer[..progress.written])?;
            return Ok(Packets(next));
        }
        let mut rest = block;
        while !rest.is_empty() && !listing.is_done() {
            let (next, progress) = listing.read(rest, buffer);
            output.write_all(&buffer[..progress.written])?;
            listing = next;
            rest = &rest[progress.taken..];
        }
        Ok(Packets(listing))
    }

    ghost any_cutting = { any_cutting };

    ghost ends_done = { ends_done };

    ghost stays_done = { stays_done };
}

fn main(rt: HostRuntime) {
    Packets::list_all(&rt);
}
