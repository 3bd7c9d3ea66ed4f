// `page`: reads a placement on standard input and prints the page that crews pin inside a cabinet's door.
// No byte after the first 32,768 of standard input changes what is written.
#![tactic(auto)]

ghost use Rattle.std.specs.Prelude.{◌≤◌, length};
ghost use Rattle.report.specs.Replies.{Replied};
ghost use Rattle.call_replies.specs.Page.{page_reply, page_needed};

use call_replies::PAGE_NEEDED;

// Puts what is written for the arguments and the input at the start of `out`, and answers its length: such a slice is never refused.
fn reply(arguments: &[u8], input: &[u8], out: &mut [u8]) -> usize
    requires { page_needed ≤ length out.old }
    ensures { Replied (page_reply arguments.now input.now) result out.old out.new }
{
    let Ok(length) = reply_page::page_reply(arguments, input, out) else {
        return 0;
    };
    length
}

// Writes the reply for the arguments and the input.
fn answer(rt: &(impl Print + Eprint), arguments: &[u8], input: &[u8]) {
    let mut out = [0u8; PAGE_NEEDED];
    let length = reply(arguments, input, &mut out);
    console::write_output(rt, &out[0..length]);
}

fn main(rt: HostRuntime) {
    command::run(&rt, |arguments, input| answer(&rt, arguments, input));
}
