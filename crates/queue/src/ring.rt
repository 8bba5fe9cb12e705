// The queue's state: a ring of 64 places whose freed places are used again, and one held code beside it. A code is kept
// by its number.
ghost use Rattle.std.specs.Prelude.{◌≡◌};
ghost use Rattle.queue.specs.Ring.{fresh_ring};

// How many places the ring has, and so how many codes may wait.
pub(crate) const PLACES: usize = 64;

// The waiting codes stand from `start` on, and wrap around to place 0 at the end. The held code is a command that the
// next pop sends, since the pair before it carried the single code or space that precedes it. The memory is fixed: there is no
// heap.
#[derive(Clone, Copy)]
pub struct Queue {
    pub places: [u16; PLACES],
    pub start: usize,
    pub waiting: usize,
    pub held: Option<u16>,
}

impl Queue {
    // A queue in which nothing waits and nothing is held.
    pub fn new() -> Queue
        ensures { result ≡ fresh_ring }
    {
        Queue {
            places: [0; PLACES],
            start: 0,
            waiting: 0,
            held: None,
        }
    }

    // A fresh queue, whatever the state was.
    pub fn reset(self) -> Queue
        ensures { result ≡ fresh_ring }
    {
        Queue::new()
    }
}
