// The reply of the program `rounds`, put into a slice that a caller lends.
#![tactic(auto)]

ghost use Rattle.std.specs.Prelude.{◌≤◌, length};
ghost use Rattle.report.specs.Replies.{Replied, line_needed};
ghost use Rattle.report.specs.Answers.{ReplyDone};
ghost use Rattle.replies.specs.Replying.{into};
ghost use Rattle.call_replies.specs.Rounds.{rounds_text, rounds_reply};

use refusal::Refusal;
use report::LINE_NEEDED;
use text::{GivenEnd, TextRefusal};

// Puts the line of the number of usable records after q rounds, or of the refusal, at the start of `out`, and answers its length.
fn rounds_text(placement: &[u8], q: usize, out: &mut [u8]) -> usize
    requires { line_needed ≤ length out.old }
    ensures { Replied (rounds_text q placement.now) result out.old out.new }
{
    let answer = rounds_code::rounds(placement, q);
    match answer {
        Ok(number) => reply_lines::put_numbers(out, 0, number, &[]),
        Err(e) => report_lines::refused_line(out, e),
    }
}

// Puts what `rounds` prints at the start of `out`, and answers its length.
fn rounds_given(arguments: &[u8], input: &[u8], out: &mut [u8]) -> usize
    requires { line_needed ≤ length out.old }
    ensures { Replied (rounds_reply arguments.now input.now) result out.old out.new }
{
    let given = text_code::read_given(arguments, input, 1);
    let end = given.end;
    let values = given.values;
    match end {
        GivenEnd::Unread(_) => report_lines::refused_line(out, Refusal::BadRounds),
        GivenEnd::Extra => reply_lines::text_line(out, TextRefusal::Arguments(1)),
        GivenEnd::File(place) => rounds_text(&input[place..], values[0], out),
    }
}

// Puts what `rounds` prints for its arguments and the input at the start of `out`, and answers its length; a slice of fewer than
// 200 bytes is refused.
pub fn rounds_reply(arguments: &[u8], input: &[u8], out: &mut [u8]) -> Result<usize, Refusal>
    ensures { ReplyDone
        (into line_needed (rounds_reply arguments.now input.now) (length out.old))
        out.old out.new result }
{
    if out.len() < LINE_NEEDED {
        return Err(Refusal::ShortOutput(LINE_NEEDED));
    }
    let length = rounds_given(arguments, input, out);
    Ok(length)
}
