// The arguments that a program was started with, and the files that they name.
//
// Functions take the runtime itself and not its traits, so that a program reaches no call of the system but those that are made here.
#![tactic(auto)]

ghost use Rattle.std.specs.Prelude.{◌≡◌, ℕ, ◌+◌, ◌≤◌, IsNone, List, length};
ghost use Rattle.std.specs.Fn.{FnOnceReturnsAtPair};
ghost use Rattle.console.specs.Counts.{IsPrefixLen};

use console::Taken;
use std::env::FillError;
use std::fs::OpenOptions;
use std::io::Write;
use std::rt::{Env, Files};
use std::{io, str};

// How many bytes of an argument are looked at: no number has so many digits.
const LONGEST: usize = 16;

// How many bytes of a file's name are taken: the system opens none of so many.
const NAME_MOST: usize = 4096;

// How many bytes an error's text has room for: the system's texts are shorter.
const REASON_MOST: usize = 128;

// How many arguments there are, the program's own name among them.
fn arg_count(rt: &HostRuntime) -> usize {
    let mut none = [0u8; 0];
    for i in 0..usize::MAX {
        if let Err(FillError::NotPresent) = rt.arg(i, &mut none) {
            return i;
        }
    }
    usize::MAX
}

// Puts argument i at the start of `word` and answers its length; of a longer one as much as there is room for.
fn fetch(rt: &HostRuntime, i: usize, word: &mut [u8]) -> usize
    ensures { result ≤ length word.new }
{
    match rt.arg(i, word) {
        Ok(n) => n,
        Err(FillError::TooLong) => word.len(),
        Err(FillError::NotPresent) => 0,
    }
}

// Puts argument i at `at`, with a byte 0 after it, and answers the place after that.
fn put_argument(rt: &HostRuntime, i: usize, text: &mut [u8], at: usize) -> usize
    requires { at + 17 ≤ length text.old }
    ensures { result ≤ at + 17 }
{
    let end = at + LONGEST;
    let next = at + fetch(rt, i, &mut text[at..end]);
    text[next] = 0;
    next + 1
}

// Puts the arguments into `text` as far as it reaches, each with a byte 0 after it, of a longer one its first 16 bytes; answers how
// many bytes these are.
pub fn arguments(rt: &HostRuntime, text: &mut [u8]) -> usize
    ensures { IsPrefixLen result text.new }
{
    let count = arg_count(rt);
    let mut at: usize = 0;
    for i in 1..count {
        if text.len() - at < 17 {
            return at;
        }
        at = put_argument(rt, i, text, at);
    }
    at
}

// Runs a program that takes numbers and then a file, and answers what was read: `answer` is given the arguments, as `arguments` puts them,
// and the first 32,768 bytes of standard input. Where that can't be read, it is said, and nothing is answered.
pub fn run<F: FnOnce(&[u8], &[u8])>(rt: &HostRuntime, answer: F) -> Taken
    requires { F.IsAlwaysCallable answer }
    ensures counted { result.count ≤ 32_768 }
    ensures given { IsNone result.failure → (arguments bytes : List ℕ) × (length arguments ≤ 272) × (length bytes ≡ result.count)
        × FnOnceReturnsAtPair F.FnOnce answer arguments bytes tt }
{
    let mut words = [0u8; 272];
    let size = arguments(rt, &mut words);
    let mut buffer = [0u8; 32768];
    let taken = console::read_input(rt, &mut rt.stdin(), &mut buffer);
    if taken.failure.is_none() {
        answer(&words[0..size], &buffer[0..taken.count]);
    }
    taken
}

// How many arguments there are, the program's own name not counted.
pub fn named(rt: &HostRuntime) -> usize {
    arg_count(rt).saturating_sub(1)
}

// An error's text without the system's number of it, which ends it.
fn without_number(text: &str) -> &str {
    match text.split_once(" (os error ") {
        Some((why, _)) => why,
        None => text,
    }
}

// Says on standard error what failed, and why.
fn fail(rt: &impl Eprint, what: &str, e: io::Error) {
    let mut text = io::Cursor::new([0u8; REASON_MOST]);
    let _ = write!(text, "{e}");
    let end = text.position() as usize;
    let bytes = text.into_inner();
    let written = bytes.get(..end).unwrap_or(&bytes[..]);
    let why = without_number(str::from_utf8(written).unwrap_or(""));
    let _ = eprintln!(rt; "{what}: {why}");
}

// Reads the file of that name, and says where it can't.
fn read_file(rt: &HostRuntime, name: &str, buffer: &mut [u8]) -> Taken
    ensures { IsPrefixLen result.count buffer.new }
{
    match rt.open_file(OpenOptions::new().read(true), name) {
        Ok(mut file) => {
            let taken = console::read_all(&mut file, buffer);
            if let Some(e) = taken.failure {
                fail(rt, name, e);
            }
            taken
        }
        Err(e) => {
            fail(rt, name, e);
            Taken {
                count: 0,
                failure: Some(e),
            }
        }
    }
}

// Says that a name is no text, and so names no file that could be opened.
fn refuse_name(rt: &impl Eprint, name: &[u8]) -> io::Error {
    let e = io::Error::new(
        io::ErrorKind::InvalidFilename,
        "the name is not text in UTF-8",
    );
    let _ = eprintln!(rt; "{}: {e}", name.escape_ascii());
    e
}

// Reads the file that argument i names, and says where it can't.
pub fn read_named(rt: &HostRuntime, i: usize, buffer: &mut [u8]) -> Taken
    ensures { IsPrefixLen result.count buffer.new }
{
    let mut name = [0u8; NAME_MOST];
    let n = rt.arg(i, &mut name).unwrap_or(0);
    match str::from_utf8(&name[..n]) {
        Ok(text) => read_file(rt, text, buffer),
        Err(_) => Taken {
            count: 0,
            failure: Some(refuse_name(rt, &name[..n])),
        },
    }
}
