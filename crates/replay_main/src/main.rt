// `replay`: takes the outage log in the file that its argument names and a placement on standard input, and prints the lowest number of
// usable records and the first event after which it stood. No byte of the placement after the first 32,768, and none of the log after
// the first 131,072, changes what is written.
#![tactic(auto)]

ghost use Rattle.std.specs.Prelude.{◌≤◌, length};
ghost use Rattle.report.specs.Replies.{line_needed, Replied};
ghost use Rattle.logs.specs.Replying.{replay_reply};
ghost use Rattle.console.specs.Counts.{IsPrefixLen};

use console::Taken;
use logs::TEXT_MOST;
use report::LINE_NEEDED;

// Puts what is written with so many arguments at the start of `out`, and answers its length: such a slice is never refused.
fn reply(named: usize, log: &[u8], placement: &[u8], out: &mut [u8]) -> usize
    requires { line_needed ≤ length out.old }
    ensures { Replied (replay_reply named log.now placement.now) result out.old out.new }
{
    let Ok(length) = reply_replay::replay_reply(named, log, placement, out) else {
        return 0;
    };
    length
}

// Writes the reply.
fn answer(rt: &(impl Print + Eprint), named: usize, log: &[u8], placement: &[u8]) {
    let mut out = [0u8; LINE_NEEDED];
    let length = reply(named, log, placement, &mut out);
    console::write_output(rt, &out[0..length]);
}

// Reads the log where one file is named; nothing else.
fn take_log(rt: &HostRuntime, named: usize, buffer: &mut [u8]) -> Taken
    ensures { IsPrefixLen result.count buffer.new }
{
    if named == 1 {
        return command::read_named(rt, 1, buffer);
    }
    Taken {
        count: 0,
        failure: None,
    }
}

fn main(rt: HostRuntime) {
    let named = command::named(&rt);
    let mut log = [0u8; TEXT_MOST];
    let mut placement = [0u8; 32768];
    let first = take_log(&rt, named, &mut log);
    if first.failure.is_some() {
        return;
    }
    let second = console::read_input(&rt, &mut rt.stdin(), &mut placement);
    if second.failure.is_some() {
        return;
    }
    let a = first.count;
    let b = second.count;
    answer(&rt, named, &log[0..a], &placement[0..b]);
}
