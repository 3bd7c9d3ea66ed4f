// `check`: reads a placement on standard input and prints its line, or the line of its refusal. No byte after the first
// 32,768 changes what is printed.
#![tactic(auto)]

ghost use Rattle.std.specs.Prelude.{◌≤◌, length};
ghost use Rattle.report.specs.Programs.{check_line};
ghost use Rattle.report.specs.Replies.{line_needed, Replied};

use report::LINE_NEEDED;

// Puts what is printed for the input at the start of `out`, and answers its length: such a slice is never refused.
fn reply(input: &[u8], out: &mut [u8]) -> usize
    requires { line_needed ≤ length out.old }
    ensures { Replied (check_line input.now) result out.old out.new }
{
    let Ok(length) = report_check::check_reply(input, out) else {
        return 0;
    };
    length
}

// Prints the line for the input.
fn answer(rt: &(impl Print + Eprint), input: &[u8]) {
    let mut out = [0u8; LINE_NEEDED];
    let length = reply(input, &mut out);
    console::write_output(rt, &out[0..length]);
}

fn main(rt: HostRuntime) {
    let mut buffer = [0u8; 32768];
    console::run(&rt, &mut buffer, |input| answer(&rt, input));
}
