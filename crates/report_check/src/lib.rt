// The reply of the program `check`, put into a slice that a caller lends.
#![tactic(auto)]

mod line;

ghost use Rattle.std.specs.Prelude.{length};
ghost use Rattle.report.specs.Replies.{check_into};
ghost use Rattle.report.specs.Answers.{ReplyDone};

use refusal::Refusal;
use report::LINE_NEEDED;

// Puts what `check` prints for the input at the start of `out`, and answers its length; a slice of fewer than 200 bytes is
// refused.
pub fn check_reply(input: &[u8], out: &mut [u8]) -> Result<usize, Refusal>
    ensures { ReplyDone (check_into input.now (length out.old)) out.old out.new result }
{
    if out.len() < LINE_NEEDED {
        return Err(Refusal::ShortOutput(LINE_NEEDED));
    }
    let length = crate::line::check_line(input, out);
    Ok(length)
}
