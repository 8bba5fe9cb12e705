// A line of text that waits to be written, in a fixed piece of memory.
ghost use Rattle.std.specs.Prelude.{◌≡◌};
ghost use Rattle.lines.specs.Line.{Flushes, empty_line, has_more, pending};

use crate::put::Writer;

// The bytes of a line's memory. No line is longer.
pub(crate) const LINE_LENGTH: usize = 96;

// What waits are the bytes from `at` up to `len`. The memory is fixed: there is no heap.
#[derive(Clone, Copy)]
pub struct Line {
    pub bytes: [u8; LINE_LENGTH],
    pub at: usize,
    pub len: usize,
}

impl Line {
    // An empty line.
    pub(crate) fn new() -> Line
        ensures { result ≡ empty_line }
    {
        Line {
            bytes: [0; LINE_LENGTH],
            at: 0,
            len: 0,
        }
    }

    // The bytes that wait.
    pub(crate) fn waiting(&self) -> &[u8]
        ensures { result.now ≡ pending self.now }
    {
        let end = self.len.min(LINE_LENGTH);
        &self.bytes[self.at.min(end)..end]
    }

    // Whether anything waits.
    #[tactic(auto, using(crate::proofs::Waiting::how_many_lem))]
    pub(crate) fn has_more(&self) -> bool
        ensures { result ≡ has_more self.now }
    {
        !self.waiting().is_empty()
    }

    // Writes what waits, as far as there is room. A line of which nothing is left is empty.
    pub(crate) fn flush(self, out: &mut Writer) -> Line
        ensures { Flushes self out.old result out.new }
    {
        let waiting = self.waiting();
        let count = waiting.len().min(out.room());
        out.put_word(&waiting[..count]);
        if waiting.len() <= count {
            return Line::new();
        }
        Line {
            at: self.at + count,
            ..self
        }
    }
}
