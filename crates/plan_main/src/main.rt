// `plan`: takes s, k and b, then a pack on standard input, and writes the placement, or the line of the refusal.
// No byte after the first 32,768 of standard input changes what is written.
#![tactic(auto)]

ghost use Rattle.std.specs.Prelude.{◌≤◌, length};
ghost use Rattle.planner.specs.Planning.{output_most};
ghost use Rattle.report.specs.Replies.{Replied};
ghost use Rattle.replies.specs.Plans.{plan_program};

use replies::OUTPUT_MOST;

// Puts what is written for the arguments and the input at the start of `out`, and answers its length: such a slice is never refused.
fn reply(arguments: &[u8], input: &[u8], out: &mut [u8]) -> usize
    requires { output_most ≤ length out.old }
    ensures { Replied (plan_program arguments.now input.now) result out.old out.new }
{
    let Ok(length) = reply_plan::plan_reply(arguments, input, out) else {
        return 0;
    };
    length
}

// Writes the reply for the arguments and the input.
fn answer(rt: &(impl Print + Eprint), arguments: &[u8], input: &[u8]) {
    let mut out = [0u8; OUTPUT_MOST];
    let length = reply(arguments, input, &mut out);
    console::write_output(rt, &out[0..length]);
}

fn main(rt: HostRuntime) {
    command::run(&rt, |arguments, input| answer(&rt, arguments, input));
}
