// `join`: joins the packs in the one, two or three files that its arguments name, or the one on standard input where none is named, and
// writes the joined pack, or the line of the refusal. No byte of a file after the first 32,768 changes what is written.
#![tactic(auto)]

ghost use Rattle.std.specs.Prelude.{◌≤◌, length};
ghost use Rattle.console.specs.Counts.{IsPrefixLen};
ghost use Rattle.planner.specs.Planning.{output_most};
ghost use Rattle.report.specs.Replies.{Replied};
ghost use Rattle.call_replies.specs.Join.{join_reply};

use console::Taken;
use replies::OUTPUT_MOST;

// Puts what is written for so many named files at the start of `out`, and answers its length: such a slice is never refused.
fn reply(named: usize, first: &[u8], second: &[u8], third: &[u8], out: &mut [u8]) -> usize
    requires { output_most ≤ length out.old }
    ensures { Replied
        (join_reply named first.now second.now third.now (length out.old)) result
        out.old out.new }
{
    let Ok(length) = reply_join::join_reply(named, first, second, third, out) else {
        return 0;
    };
    length
}

// Writes the reply for so many named files.
fn answer(rt: &(impl Print + Eprint), named: usize, first: &[u8], second: &[u8], third: &[u8]) {
    let mut out = [0u8; OUTPUT_MOST];
    let length = reply(named, first, second, third, &mut out);
    console::write_output(rt, &out[0..length]);
}

// Reads file i of those that are named, or standard input as the first where none is; nothing where there is no such file, or where
// more than three are named.
fn take_file(rt: &HostRuntime, i: usize, named: usize, buffer: &mut [u8]) -> Taken
    ensures { IsPrefixLen result.count buffer.new }
{
    if 3 < named {
        return Taken {
            count: 0,
            failure: None,
        };
    }
    if i <= named {
        return command::read_named(rt, i, buffer);
    }
    if i == 1 {
        return console::read_input(rt, &mut rt.stdin(), buffer);
    }
    Taken {
        count: 0,
        failure: None,
    }
}

fn main(rt: HostRuntime) {
    let named = command::named(&rt);
    let mut first = [0u8; 32768];
    let mut second = [0u8; 32768];
    let mut third = [0u8; 32768];
    let one = take_file(&rt, 1, named, &mut first);
    if one.failure.is_some() {
        return;
    }
    let two = take_file(&rt, 2, named, &mut second);
    if two.failure.is_some() {
        return;
    }
    let three = take_file(&rt, 3, named, &mut third);
    if three.failure.is_some() {
        return;
    }
    let a = one.count;
    let b = two.count;
    let c = three.count;
    answer(&rt, named, &first[0..a], &second[0..b], &third[0..c]);
}
