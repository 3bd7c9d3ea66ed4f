// The reply of the program `page`, put into a slice that a caller lends.
#![tactic(auto)]

ghost use Rattle.std.specs.Prelude.{◌≤◌, length};
ghost use Rattle.report.specs.Replies.{Replied};
ghost use Rattle.report.specs.Answers.{ReplyDone};
ghost use Rattle.replies.specs.Replying.{into};
ghost use Rattle.call_replies.specs.Page.{page_text, page_reply, page_needed};

use call_replies::PAGE_NEEDED;
use refusal::Refusal;
use text::{GivenEnd, TextRefusal};

// Puts a placement's page, or the line of the refusal, at the start of `out`, and answers its length.
fn page_text(placement: &[u8], out: &mut [u8]) -> usize
    requires { page_needed ≤ length out.old }
    ensures { Replied (page_text placement.now) result out.old out.new }
{
    let writing = page_code::page(placement, out);
    match writing {
        Err(e) => report_lines::refused_line(out, e),
        Ok(length) => length,
    }
}

// Puts what `page` prints at the start of `out`, and answers its length.
fn page_given(arguments: &[u8], input: &[u8], out: &mut [u8]) -> usize
    requires { page_needed ≤ length out.old }
    ensures { Replied (page_reply arguments.now input.now) result out.old out.new }
{
    let given = text_code::read_given(arguments, input, 0);
    let end = given.end;
    match end {
        GivenEnd::Unread(i) => report_lines::refused_line(out, Refusal::BadOrder(i)),
        GivenEnd::Extra => reply_lines::text_line(out, TextRefusal::Arguments(0)),
        GivenEnd::File(place) => page_text(&input[place..], out),
    }
}

// Puts what `page` prints for its arguments and the input at the start of `out`, and answers its length; a slice of fewer than
// 110,619 bytes is refused.
pub fn page_reply(arguments: &[u8], input: &[u8], out: &mut [u8]) -> Result<usize, Refusal>
    ensures { ReplyDone
        (into page_needed (page_reply arguments.now input.now) (length out.old))
        out.old out.new result }
{
    if out.len() < PAGE_NEEDED {
        return Err(Refusal::ShortOutput(PAGE_NEEDED));
    }
    let length = page_given(arguments, input, out);
    Ok(length)
}
