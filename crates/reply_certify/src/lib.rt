// The reply of the program `certify`, put into a slice that a caller lends: what it is, and the code.
#![tactic(auto)]

ghost use Rattle.std.specs.Prelude.{◌≤◌, length};
ghost use Rattle.planner.specs.Planning.{output_most};
ghost use Rattle.report.specs.Replies.{Replied};
ghost use Rattle.report.specs.Answers.{ReplyDone};
ghost use Rattle.replies.specs.Replying.{into};
ghost use Rattle.reply_certify.specs.Certify.{certify_text, certify_reply};

use refusal::Refusal;
use replies::OUTPUT_MOST;
use text::{GivenEnd, TextRefusal};

// Puts the placement of the bare rows, or the line of the refusal, at the start of `out`, and answers its length.
fn certify_text(bare: &[u8], out: &mut [u8]) -> usize
    requires { output_most ≤ length out.old }
    ensures { Replied (certify_text bare.now) result out.old out.new }
{
    let result = certify_code::certify(bare, out);
    let answer = result.answer;
    match answer {
        Ok(planned) => planned.length,
        Err(e) => report_lines::refused_line(out, e),
    }
}

// Puts what `certify` writes at the start of `out`, and answers its length.
fn certify_given(arguments: &[u8], input: &[u8], out: &mut [u8]) -> usize
    requires { output_most ≤ length out.old }
    ensures { Replied (certify_reply arguments.now input.now) result out.old out.new }
{
    let given = text_code::read_given(arguments, input, 0);
    let end = given.end;
    match end {
        GivenEnd::Unread(i) => report_lines::refused_line(out, Refusal::BadOrder(i)),
        GivenEnd::Extra => reply_lines::text_line(out, TextRefusal::Arguments(0)),
        GivenEnd::File(place) => certify_text(&input[place..], out),
    }
}

// Puts what `certify` writes for its arguments and the input at the start of `out`, and answers its length; a slice of fewer than
// 20,928 bytes is refused.
pub fn certify_reply(arguments: &[u8], input: &[u8], out: &mut [u8]) -> Result<usize, Refusal>
    ensures { ReplyDone
        (into output_most (certify_reply arguments.now input.now) (length out.old))
        out.old out.new result }
{
    if out.len() < OUTPUT_MOST {
        return Err(Refusal::ShortOutput(OUTPUT_MOST));
    }
    let length = certify_given(arguments, input, out);
    Ok(length)
}
