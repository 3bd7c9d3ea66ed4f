// `ask`: takes s, k and b, then a pack on standard input, and prints the figure, the counts and the copies that planning would take.
// No byte after the first 32,768 of standard input changes what is written.
#![tactic(auto)]

ghost use Rattle.std.specs.Prelude.{◌≤◌, length};
ghost use Rattle.report.specs.Replies.{Replied};
ghost use Rattle.call_replies.specs.Committing.{ask_reply, ask_needed};

use call_replies::ASK_NEEDED;

// Puts what is written for the arguments and the input at the start of `out`, and answers its length: such a slice is never refused.
fn reply(arguments: &[u8], input: &[u8], out: &mut [u8]) -> usize
    requires { ask_needed ≤ length out.old }
    ensures { Replied (ask_reply arguments.now input.now) result out.old out.new }
{
    let Ok(length) = reply_ask::ask_reply(arguments, input, out) else {
        return 0;
    };
    length
}

// Writes the reply for the arguments and the input.
fn answer(rt: &(impl Print + Eprint), arguments: &[u8], input: &[u8]) {
    let mut out = [0u8; ASK_NEEDED];
    let length = reply(arguments, input, &mut out);
    console::write_output(rt, &out[0..length]);
}

fn main(rt: HostRuntime) {
    command::run(&rt, |arguments, input| answer(&rt, arguments, input));
}
