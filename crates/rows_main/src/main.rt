// `rows`: reads bare rows as text on standard input and writes the file of bare rows, or the line of the refusal. A text of 131,072 bytes or
// more is refused, and no byte after these changes what is written.
#![tactic(auto)]

ghost use Rattle.std.specs.Prelude.{◌≤◌, length};
ghost use Rattle.report.specs.Replies.{Replied};
ghost use Rattle.table.specs.Progress.{pack_most};
ghost use Rattle.rows_text.specs.Making.{rows_reply};

use table::{PACK_MOST, TEXT_MOST};

// Puts what is written for the input at the start of `out`, and answers its length: such a slice is never refused.
fn reply(input: &[u8], out: &mut [u8]) -> usize
    requires { pack_most ≤ length out.old }
    ensures { Replied (rows_reply input.now) result out.old out.new }
{
    let Ok(length) = rows_text_code::rows_reply(input, out) else {
        return 0;
    };
    length
}

// Writes the reply for the input.
fn answer(rt: &(impl Print + Eprint), input: &[u8]) {
    let mut out = [0u8; PACK_MOST];
    let length = reply(input, &mut out);
    console::write_output(rt, &out[0..length]);
}

fn main(rt: HostRuntime) {
    let mut buffer = [0u8; TEXT_MOST];
    console::run(&rt, &mut buffer, |input| answer(&rt, input));
}
