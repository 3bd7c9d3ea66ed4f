// The reply of the program `curve`, put into a slice that a caller lends.
#![tactic(auto)]

ghost use Rattle.std.specs.Prelude.{◌≤◌, length};
ghost use Rattle.report.specs.Replies.{Replied};
ghost use Rattle.report.specs.Answers.{ReplyDone};
ghost use Rattle.replies.specs.Lines.{figure_lines};
ghost use Rattle.replies.specs.Replying.{into};
ghost use Rattle.call_replies.specs.Curve.{curve_text, curve_reply, curve_needed};

use call_replies::CURVE_NEEDED;
use refusal::Refusal;
use text::{GivenEnd, TextRefusal};

// Puts a line with the number of failures and the figure for each figure at the start of `out`, the first for k failures, and
// answers their length.
fn put_figures(figures: &[u16], k: usize, out: &mut [u8]) -> usize
    requires k_bound { k ≤ 255 }
    requires figures_len_bound { length figures.now ≤ 254 }
    requires curve_needed_in_bounds { curve_needed ≤ length out.old }
    ensures { Replied (figure_lines k figures.now) result out.old out.new }
{
    let mut place: usize = 0;
    for (i, figure) in figures.iter().enumerate() {
        let figure = [usize::from(*figure)];
        place = reply_lines::put_numbers(out, place, k + i, &figure);
    }
    place
}

// Puts the lines of a placement's curve, or of the refusal, at the start of `out`, and answers their length.
fn curve_text(placement: &[u8], out: &mut [u8]) -> usize
    requires { curve_needed ≤ length out.old }
    ensures { Replied (curve_text placement.now) result out.old out.new }
{
    let order = reply_order::order_of(placement);
    let s = order.s;
    let mut figures = [0u16; 254];
    let writing = curve_code::curve(placement, &mut figures);
    match writing {
        Err(e) => report_lines::refused_line(out, e),
        Ok(entries) => put_figures(&figures[0..entries], s, out),
    }
}

// Puts what `curve` prints at the start of `out`, and answers its length.
fn curve_given(arguments: &[u8], input: &[u8], out: &mut [u8]) -> usize
    requires { curve_needed ≤ length out.old }
    ensures { Replied (curve_reply arguments.now input.now) result out.old out.new }
{
    let given = text_code::read_given(arguments, input, 0);
    let end = given.end;
    match end {
        GivenEnd::Unread(i) => report_lines::refused_line(out, Refusal::BadOrder(i)),
        GivenEnd::Extra => reply_lines::text_line(out, TextRefusal::Arguments(0)),
        GivenEnd::File(place) => curve_text(&input[place..], out),
    }
}

// Puts what `curve` prints for its arguments and the input at the start of `out`, and answers its length; a slice of fewer than
// 10,668 bytes is refused.
pub fn curve_reply(arguments: &[u8], input: &[u8], out: &mut [u8]) -> Result<usize, Refusal>
    ensures { ReplyDone
        (into curve_needed (curve_reply arguments.now input.now) (length out.old))
        out.old out.new result }
{
    if out.len() < CURVE_NEEDED {
        return Err(Refusal::ShortOutput(CURVE_NEEDED));
    }
    let length = curve_given(arguments, input, out);
    Ok(length)
}
