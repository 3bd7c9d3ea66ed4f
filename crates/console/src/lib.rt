// Standard input and output, with what fails told on standard error.
#![tactic(auto)]

ghost use Rattle.std.specs.Prelude.{◌≡◌, ◌+◌, ◌<◌, ◌≤◌, IsNone, drop, length, take};
ghost use Rattle.std.specs.Fn.{FnOnceReturnsAt};
ghost use Rattle.std.specs.Io.KnownBytes.{Consumes, IsAtEnd};
ghost use Rattle.console.specs.Counts.{IsPrefixLen};

use std::io;
use std::io::Read;

// What was read: how many bytes stand at the buffer's start, and why a read failed, where one did.
#[derive(Clone, Copy)]
pub struct Taken {
    pub count: usize,
    pub failure: Option<io::Error>,
}

// One read into the buffer from `at` on.
fn read_more<R: Read>(reader: &mut R, buffer: &mut [u8], at: usize) -> Taken
    requires { at ≤ length buffer.old }
    ensures fits { at + result.count ≤ length buffer.new }
    ensures before { take at buffer.new ≡ take at buffer.old }
    ensures bytes { Consumes (R.remaining reader.old) (R.remaining reader.new)
        (take result.count (drop at buffer.new)) }
    ensures end { IsNone result.failure → result.count ≡ 0 → at < length buffer.old
        → IsAtEnd (R.remaining reader.new) }
{
    match reader.read(&mut buffer[at..]) {
        Ok(count) => Taken {
            count,
            failure: None,
        },
        Err(e) => Taken {
            count: 0,
            failure: Some(e),
        },
    }
}

// Reads until the buffer is full, the input ends or a read fails: takes as many of the reader's bytes as it counts, and fewer than the
// buffer has room for only where none is left or a read failed.
pub fn read_all<R: Read>(reader: &mut R, buffer: &mut [u8]) -> Taken
    ensures counted { IsPrefixLen result.count buffer.new }
    ensures bytes { Consumes (R.remaining reader.old) (R.remaining reader.new)
        (take result.count buffer.new) }
    ensures end { IsNone result.failure → result.count < length buffer.new
        → IsAtEnd (R.remaining reader.new) }
{
    let mut count: usize = 0;
    // A while loop: a turn moves on by as many bytes as were read.
    while count < buffer.len() {
        let more = read_more(reader, buffer, count);
        let got = more.count;
        if got == 0 {
            return Taken {
                count,
                failure: more.failure,
            };
        }
        count += got;
    }
    Taken {
        count,
        failure: None,
    }
}

// Reads standard input, which is the reader, and says where it can't.
pub fn read_input<R: Read>(rt: &impl Eprint, reader: &mut R, buffer: &mut [u8]) -> Taken
    ensures counted { IsPrefixLen result.count buffer.new }
    ensures bytes { Consumes (R.remaining reader.old) (R.remaining reader.new)
        (take result.count buffer.new) }
    ensures end { IsNone result.failure → result.count < length buffer.new
        → IsAtEnd (R.remaining reader.new) }
{
    let taken = read_all(reader, buffer);
    if taken.failure.is_some() {
        let _ = rt.eprint("standard input can't be read\n");
    }
    taken
}

// Runs a program that takes a file on standard input, and answers what was read: `answer` is given as much of it as the buffer holds.
// Where it can't be read, it is said, and nothing is answered.
pub fn run<F: FnOnce(&[u8])>(rt: &HostRuntime, buffer: &mut [u8], answer: F) -> Taken
    requires { F.IsAlwaysCallable answer }
    ensures counted { IsPrefixLen result.count buffer.new }
    ensures given { IsNone result.failure → FnOnceReturnsAt F.FnOnce answer (take result.count buffer.new) tt }
{
    let taken = read_input(rt, &mut rt.stdin(), buffer);
    if taken.failure.is_none() {
        answer(&buffer[0..taken.count]);
    }
    taken
}

// Writes to standard output, and says where it can't.
pub fn write_output(rt: &(impl Print + Eprint), bytes: &[u8]) {
    if rt.write_all(bytes).is_err() {
        let _ = rt.eprint("standard output can't be written\n");
    }
}
