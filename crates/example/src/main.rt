// Queues a caption and writes the pairs that carry it: `./run example | ./run listing` lists them again.
#![tactic(auto)]

use code::{Channel, Code, Command, Control, ControlCode, Field};
use sender::Sender;
use std::io;
use std::io::Write;

fn main(rt: HostRuntime) -> io::Result<()> {
    let two_rows = ControlCode::new(Field::ONE, Channel::ONE, Control::Command(Command::RollUp2));
    let (sender, _) = Sender::new().push(Code::Control(two_rows));
    let Ok(note) = Code::from_char(0x266A, Channel::ONE) else {
        return Ok(());
    };
    let (sender, _) = sender.push(note);
    let mut line = [0x80u8; 16];
    let _ = sender.drain(&mut line, 0, 8);
    rt.stdout().write_all(&line)
}
