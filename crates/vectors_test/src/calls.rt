// The calls, by the number that a vector's head gives them. One that is new is one more case here and a name in tell.rt.
ghost use Rattle.std.specs.Prelude.{◌≤◌, ◌<◌};

use crate::answers;
use crate::answers::unknown;
use crate::script::{Given, Part, byte_of, part_of};
use operators::SharedOrder;
use placement::FeederTable;

// The packing test of layer x on c rows of r nodes, where the rows stand in the bytes and are in order.
fn crowded_rows(rows: &[u8], c: usize, r: usize, x: usize, bound: usize) -> [usize; 19]
    requires { (c ≤ 4096) × (r ≤ 5) × (x < r) }
{
    let end = c * r;
    if rows.len() < end {
        return unknown();
    }
    let bad = rows_code::first_bad(rows, c, r, 256, 0);
    let None = bad else {
        return unknown();
    };
    answers::row_found(crowding_code::first_crowded(rows, c, r, x, bound))
}

// The packing test, where its numbers are within limits.
fn crowded(rows: &[u8], c: usize, r: usize, x: usize, bound: usize) -> [usize; 19] {
    if 4_096 < c {
        return unknown();
    }
    if 5 < r {
        return unknown();
    }
    if r <= x {
        return unknown();
    }
    crowded_rows(rows, c, r, x, bound)
}

// Puts the first nodes into the output, one byte each, as far as it reaches.
fn put_nodes(count: usize, nodes: &[usize], out: &mut [u8]) {
    for (byte, node) in out.iter_mut().zip(nodes).take(count) {
        *byte = byte_of(*node);
    }
}

// Puts how many nodes are out of service and their numbers into the output, as far as it reaches.
fn put_list(count: usize, nodes: &[usize], out: &mut [u8]) {
    put_nodes(1, &[count], out);
    if 1 <= out.len() {
        put_nodes(count, nodes, &mut out[1..]);
    }
}

// Checking a pack; its list is put into the output.
fn pack(input: &[u8], out: &mut [u8]) -> [usize; 19] {
    let check = pack_code::check_pack(input);
    let dark = check.dark;
    let nodes = dark.nodes;
    put_list(dark.count, &nodes, out);
    answers::pack_checked(check)
}

// Puts the bytes into the output, as far as it reaches.
fn put_bytes(bytes: &[u8], out: &mut [u8]) {
    let room = out.len().min(bytes.len());
    out[..room].copy_from_slice(&bytes[..room]);
}

// Puts how many feeders there are and that of each node into the output, as far as it reaches.
fn put_feeders(number: usize, each: &[u8], out: &mut [u8]) {
    put_nodes(1, &[number], out);
    if 1 <= out.len() {
        put_bytes(each, &mut out[1..]);
    }
}

// Puts the feeders after a list of so many nodes.
fn put_after(count: usize, feeders: FeederTable, out: &mut [u8]) {
    let number = feeders.number;
    let each = feeders.each;
    if count < out.len() {
        put_feeders(number, &each, &mut out[count + 1..]);
    }
}

// Checking a placement; its list is put into the output, and its feeders after it.
fn placement(input: &[u8], out: &mut [u8]) -> [usize; 19] {
    let check = placement_code::check_placement(input);
    let dark = check.dark;
    let nodes = dark.nodes;
    put_list(dark.count, &nodes, out);
    put_after(dark.count, check.feeders, out);
    answers::placement_checked(check)
}

// The calls that write nothing.
fn told(call: usize, given: Given, input: &[u8]) -> [usize; 19] {
    match call {
        4 => answers::number_read(number_code::read_number(input, given.a)),
        5 => answers::number_read(number_code::read_within(input, given.a, given.b, given.c)),
        8 => crowded(input, given.a, given.b, given.c, given.d),
        20 => answers::played(rounds_code::rounds(input, given.a)),
        21 => crate::replays::replayed(given, input),
        _ => unknown(),
    }
}

// Planning, with the slices lent.
fn plan(given: Given, input: &[u8], work: &mut [u16], out: &mut [u8]) -> [usize; 19] {
    answers::plan_result(planner_code::plan(input, given.a, given.b, given.c, work, out))
}

// Planning for one of two operators.
fn plan_operator(given: Given, input: &[u8], work: &mut [u16], out: &mut [u8]) -> [usize; 19] {
    let order = SharedOrder {
        s: given.a,
        k: given.b,
        wish: given.c,
        other: given.d,
    };
    answers::plan_result(operators_code::plan_operator(input, order, work, out))
}

// Asking, with the working slice lent.
fn ask(given: Given, input: &[u8], work: &mut [u16]) -> [usize; 19] {
    answers::ask_result(ask_code::ask(input, given.a, given.b, given.c, work))
}

// Committing the counts that are given.
fn commit(given: Given, input: &[u8], out: &mut [u8]) -> [usize; 19] {
    let counts = given.more;
    answers::plan_result(commit_code::commit(input, given.a, given.b, given.c, counts, out))
}

// What the programs say, `plan` with no argument.
fn replied(call: usize, input: &[u8], out: &mut [u8]) -> [usize; 19] {
    if call == 12 {
        return answers::replied(report_check::check_reply(input, out));
    }
    answers::replied(reply_plan::plan_reply(b"", input, out))
}

// Puts the entries into the output, two bytes each, lowest first, as far as it reaches.
fn spread(entries: &[u16], out: &mut [u8]) {
    for (pair, entry) in out.chunks_exact_mut(2).zip(entries) {
        pair.copy_from_slice(&entry.to_le_bytes());
    }
}

// The curve; its entries, and those after them, are compared as bytes.
fn curve(input: &[u8], work: &mut [u16], out: &mut [u8]) -> [usize; 19] {
    let answer = answers::wrote(curve_code::curve(input, work));
    spread(work, out);
    answer
}

// Joining one, two or three packs, which stand one after another in the input; the first two end at the places given.
fn join(given: Given, input: &[u8], out: &mut [u8]) -> [usize; 19] {
    let packs = given.a;
    let one = given.b;
    let two = given.c;
    let end = input.len();
    if packs == 1 {
        return answers::joined(join_code::join_one(input, out));
    }
    let first = part_of(input, Part { from: 0, to: one });
    if packs == 2 {
        let second = part_of(input, Part { from: one, to: end });
        return answers::joined(join_code::join_two(first, second, out));
    }
    let second = part_of(input, Part { from: one, to: two });
    let third = part_of(input, Part { from: two, to: end });
    answers::joined(join_code::join_three(first, second, third, out))
}

// What the call answers.
pub(crate) fn answer(
    call: usize,
    given: Given,
    input: &[u8],
    work: &mut [u16],
    out: &mut [u8],
) -> [usize; 19] {
    match call {
        6 => pack(input, out),
        7 => placement(input, out),
        9 => answers::number_written(number_writer::write_number(out, given.a)),
        10 => plan(given, input, work, out),
        11 => crate::walks::walked(input, out),
        12 | 13 => replied(call, input, out),
        14 => curve(input, work, out),
        15 => join(given, input, out),
        16 => plan_operator(given, input, work, out),
        17 => ask(given, input, work),
        18 => commit(given, input, out),
        19 => answers::worst(worst_code::worst_case(input, out)),
        22 => answers::wrote(page_code::page(input, out)),
        23 => answers::plan_result(certify_code::certify(input, out)),
        _ => told(call, given, input),
    }
}
