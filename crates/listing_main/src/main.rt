// `listing`: reads a file of bare rows on standard input and prints it as text, or the line of its refusal. No byte after the first 32,768
// changes what is printed.
#![tactic(auto)]

ghost use Rattle.std.specs.Prelude.{◌≤◌, length};
ghost use Rattle.report.specs.Replies.{Replied};
ghost use Rattle.table.specs.Printing.{table_most};
ghost use Rattle.rows_text_print.specs.Printing.{listing_reply};

use table::TABLE_MOST;

// Puts what is printed for the input at the start of `out`, and answers its length: such a slice is never refused.
fn reply(input: &[u8], out: &mut [u8]) -> usize
    requires { table_most ≤ length out.old }
    ensures { Replied (listing_reply input.now) result out.old out.new }
{
    let Ok(length) = rows_text_printer::listing_reply(input, out) else {
        return 0;
    };
    length
}

// Prints the text of the input.
fn answer(rt: &(impl Print + Eprint), input: &[u8]) {
    let mut out = [0u8; TABLE_MOST];
    let length = reply(input, &mut out);
    console::write_output(rt, &out[0..length]);
}

fn main(rt: HostRuntime) {
    let mut buffer = [0u8; 32768];
    console::run(&rt, &mut buffer, |input| answer(&rt, input));
}
