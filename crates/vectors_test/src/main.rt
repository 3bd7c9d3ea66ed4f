// Runs the vectors of every call, which reference/vectors.py makes, and prints how many there were of each kind and how many
// answered otherwise than expected. script.rt says how the vectors stand on standard input, calls.rt what each call is.
#![tactic(auto)]

mod answers;
mod calls;
mod compare;
mod replays;
mod script;
mod tell;
mod walks;

use script::{Given, Head, Part};
use std::io::Read;

// How many entries the longest working slice has.
const WORK_MOST: usize = 21_000;

// How many bytes the longest output has: a page of 4,096 records, and some more.
const OUT_MOST: usize = 111_000;

// What the call answers, lent as many entries and bytes as the vector says.
fn lend(call: usize, given: Given, input: &[u8], work: &mut [u16], out: &mut [u8]) -> [usize; 19] {
    let entries = given.entries;
    let room = given.room;
    if work.len() < entries {
        return answers::unknown();
    }
    if out.len() < room {
        return answers::unknown();
    }
    calls::answer(call, given, input, &mut work[0..entries], &mut out[0..room])
}

// What the call answers, where it leaves the lent slices as expected: the output starts with `written`, the working slice's
// first entries are free, and the rest of both is as it was.
fn called(call: usize, given: Given, input: &[u8], written: &[u8]) -> [usize; 19] {
    let fill = script::byte_of(given.fill);
    let entry = compare::entry_of(fill);
    let mut out = [fill; OUT_MOST];
    let mut work = [entry; WORK_MOST];
    let answer = lend(call, given, input, &mut work, &mut out);
    if compare::left(script::start_of(&out, given.room), written, fill) {
        if compare::kept(&work, given.free, given.entries, entry) {
            return answer;
        }
    }
    answers::unknown()
}

// Runs a call on the input, and reads and compares what it is to answer.
fn run_call(
    reader: &mut impl Read,
    head: Head,
    given: Given,
    input: &[u8],
    written: &[u8],
) -> bool {
    let answer = called(head.call, given, input, written);
    answer == script::next_numbers(reader, head.expected)
}

// Reads bytes, changes one or takes another part of them, as the head says; answers the part that is the input from now on.
fn prepare(
    reader: &mut impl Read,
    call: usize,
    given: Given,
    part: Part,
    bytes: &mut [u8],
    written: &mut [u8],
) -> Part {
    match call {
        0 => script::read_bytes(reader, bytes, given.a),
        1 => {
            script::read_bytes(reader, written, given.a);
            part
        }
        2 => {
            script::change(bytes, given.a, given.b);
            part
        }
        _ => Part {
            from: given.a,
            to: given.b,
        },
    }
}

// Does what the head says; answers the part that is the input from now on.
fn turn(
    rt: &impl Print,
    reader: &mut impl Read,
    head: Head,
    part: Part,
    bytes: &mut [u8],
    written: &mut [u8],
    counts: &mut [usize],
) -> Part {
    let given = script::next_given(reader, head.given);
    let call = head.call;
    if call < 4 {
        return prepare(reader, call, given, part, bytes, written);
    }
    let input = script::part_of(bytes, part);
    let good = run_call(
        reader,
        head,
        given,
        input,
        script::start_of(written, given.written),
    );
    tell::count(rt, counts, call, head.kind, good);
    part
}

// Runs all vectors.
fn run(
    rt: &impl Print,
    reader: &mut impl Read,
    bytes: &mut [u8],
    written: &mut [u8],
    counts: &mut [usize],
) {
    let mut part = Part { from: 0, to: 0 };
    for _turn in 0..1_000_000 {
        let head = script::next_head(reader);
        if head.call == script::END {
            return;
        }
        part = turn(rt, reader, head, part, bytes, written, counts);
    }
}

// One byte more than the programs read fits the input.
fn main(rt: HostRuntime) {
    let mut bytes = [0u8; 32_769];
    let mut written = [0u8; OUT_MOST];
    let mut counts = [0usize; tell::COUNTS];
    run(&rt, &mut rt.stdin(), &mut bytes, &mut written, &mut counts);
    tell::tell_kinds(&rt, &counts);
}
