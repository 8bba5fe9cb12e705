// What the programs ask of the system, and what they say by it.
ghost use Rattle.std.specs.Prelude.{◌≡◌, IfSome};
ghost use Rattle.std.specs.IoError.{raw_os_error};

use crate::lister::Failure;
use std::env::{Env, FillError};
use std::fs::File;
use std::io;
use std::io::{ErrorKind, Write};

// Room for each name of a file that Linux takes.
pub(crate) const NAME_ROOM: usize = 4096;

// Linux's numbers of errors: of an error that has no number here, of a name longer than that, and of a name that is not
// UTF-8, which std does not take.
const INPUT_OUTPUT: i32 = 5;

const NAME_TOO_LONG: i32 = 36;

const NOT_UTF_8: i32 = 84;

// What is listed: standard input, the file of a name, or one whose name is too long to be read.
#[derive(Clone, Copy)]
pub(crate) enum Source<'a> {
    Input,
    File(&'a [u8]),
    Nameless,
}

impl<'a> Source<'a> {
    // What the argument of this number names, or `None` after the last; the program's own name is 0. `-` is standard input,
    // and so is what is listed where there is no argument.
    pub(crate) fn of_argument(
        rt: &HostRuntime,
        word: usize,
        name: &'a mut [u8; NAME_ROOM],
    ) -> Option<Source<'a>> {
        match rt.arg(word, name) {
            Ok(1) if name[0] == b'-' => Some(Source::Input),
            Ok(len) => Some(Source::File(&name[..len])),
            Err(FillError::TooLong) => Some(Source::Nameless),
            Err(FillError::NotPresent) if word == 1 => Some(Source::Input),
            Err(FillError::NotPresent) => None,
        }
    }

    // The name that is said where it fails.
    pub(crate) fn name(self) -> &'a [u8] {
        match self {
            Source::Input => b"standard input",
            Source::File(name) => name,
            Source::Nameless => b"the name of a file",
        }
    }
}

// The error of a name that is too long.
pub(crate) fn too_long() -> io::Error {
    io::Error::from_raw_os_error(NAME_TOO_LONG)
}

// Opens a file to read it.
pub(crate) fn open(rt: &HostRuntime, name: &[u8]) -> io::Result<File> {
    let Ok(path) = std::str::from_utf8(name) else {
        return Err(io::Error::from_raw_os_error(NOT_UTF_8));
    };
    File::open(rt, path)
}

// Says on standard error what failed of a stream of this name, and why, after the program's name. Where nobody reads the
// output any longer, that is said to nobody.
pub(crate) fn report(rt: &HostRuntime, program: &[u8], name: &[u8], failure: Failure) {
    let (what, error) = match failure {
        Failure::Input(e) => (name, e),
        Failure::Output(e) if e.kind() == ErrorKind::BrokenPipe => return,
        Failure::Output(e) => (&b"standard output"[..], e),
        Failure::Endless => return,
    };
    say(rt, program);
    say(rt, what);
    say(rt, b": ");
    say_error(rt, &error);
    say(rt, b"\n");
}

// The system's number of an error, where it has one.
pub(crate) fn number_of(error: &io::Error) -> i32
    ensures { IfSome (raw_os_error error.now) (λ n. result ≡ n) }
{
    error.raw_os_error().unwrap_or(INPUT_OUTPUT)
}

// The system's words for an error, which `io::Error` writes before the number itself.
fn say_error(rt: &HostRuntime, error: &io::Error) {
    let number = number_of(error);
    let Ok(text) = io::Error::from_raw_os_error(number).to_string(rt.alloc()) else {
        return;
    };
    if let Some((words, _)) = text.as_str().split_once(" (os error ") {
        say(rt, words.as_bytes());
    }
}

// Writes to standard error. Where that fails, there is nowhere to say so.
fn say(rt: &HostRuntime, bytes: &[u8]) {
    let _ = rt.stderr().write_all(bytes);
}
