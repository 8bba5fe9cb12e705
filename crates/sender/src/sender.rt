// The sender's state: the queue, and what is to be repeated.
ghost use Rattle.std.specs.Prelude.{◌≡◌};
ghost use Rattle.sender.specs.Sender.{fresh_sender};

use code::Pair;
use queue::Queue;

// What the sender keeps beside the queue so that each command goes out twice: a command pair that has been sent once.
#[derive(Clone, Copy)]
pub struct Repeats {
    pub owed: Option<Pair>,
}

#[derive(Clone, Copy)]
pub struct Sender {
    pub queue: Queue,
    pub repeats: Repeats,
}

impl Sender {
    // A sender in which nothing waits, nothing is held and nothing is owed.
    pub fn new() -> Sender
        ensures { result ≡ fresh_sender }
    {
        Sender {
            queue: Queue::new(),
            repeats: Repeats { owed: None },
        }
    }

    // A fresh sender, whatever the state was.
    pub fn reset(self) -> Sender
        ensures { result ≡ fresh_sender }
    {
        Sender::new()
    }
}
