// The reply of the program `commit`, put into a slice that a caller lends.
#![tactic(auto)]

ghost use Rattle.std.specs.Prelude.{◌≡◌, ◌≤◌, length};
ghost use Rattle.planner.specs.Planning.{output_most};
ghost use Rattle.report.specs.Replies.{Replied};
ghost use Rattle.report.specs.Answers.{ReplyDone};
ghost use Rattle.replies.specs.Replying.{into};
ghost use Rattle.call_replies.specs.Committing.{commit_bad, commit_text, commit_reply};

use placement::Order;
use refusal::Refusal;
use replies::OUTPUT_MOST;
use text::{GivenEnd, TextRefusal};

// The refusal of a number that can't be read: of s, k or b, or of a count.
fn bad(index: usize) -> Refusal
    ensures { result ≡ commit_bad index }
{
    if index < 3 {
        return Refusal::BadOrder(index);
    }
    Refusal::BadCounts
}

// Puts the placement that is committed, or the line of the refusal, at the start of `out`, and answers its length.
fn commit_text(pack: &[u8], order: Order, counts: [usize; 5], out: &mut [u8]) -> usize
    requires { output_most ≤ length out.old }
    ensures { Replied (commit_text order counts pack.now) result out.old out.new }
{
    let s = order.s;
    let k = order.k;
    let b = order.b;
    let result = commit_code::commit(pack, s, k, b, counts, out);
    let answer = result.answer;
    match answer {
        Ok(planned) => planned.length,
        Err(e) => report_lines::refused_line(out, e),
    }
}

// Puts what `commit` writes at the start of `out`, and answers its length.
fn commit_given(arguments: &[u8], input: &[u8], out: &mut [u8]) -> usize
    requires { output_most ≤ length out.old }
    ensures { Replied (commit_reply arguments.now input.now) result out.old out.new }
{
    let given = text_code::read_given(arguments, input, 8);
    let end = given.end;
    let values = given.values;
    match end {
        GivenEnd::Unread(i) => report_lines::refused_line(out, bad(i)),
        GivenEnd::Extra => reply_lines::text_line(out, TextRefusal::Arguments(8)),
        GivenEnd::File(place) => {
            let order = Order {
                s: values[0],
                k: values[1],
                b: values[2],
            };
            let counts = [values[3], values[4], values[5], values[6], values[7]];
            commit_text(&input[place..], order, counts, out)
        }
    }
}

// Puts what `commit` writes for its arguments and the input at the start of `out`, and answers its length; a slice of fewer than
// 20,928 bytes is refused.
pub fn commit_reply(arguments: &[u8], input: &[u8], out: &mut [u8]) -> Result<usize, Refusal>
    ensures { ReplyDone
        (into output_most (commit_reply arguments.now input.now) (length out.old))
        out.old out.new result }
{
    if out.len() < OUTPUT_MOST {
        return Err(Refusal::ShortOutput(OUTPUT_MOST));
    }
    let length = commit_given(arguments, input, out);
    Ok(length)
}
