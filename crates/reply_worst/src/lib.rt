// The reply of the program `worst`, put into a slice that a caller lends.
#![tactic(auto)]

ghost use Rattle.std.specs.Prelude.{◌≡◌, ◌≤◌, length};
ghost use Rattle.lists.specs.Lists.{over_start};
ghost use Rattle.report.specs.Replies.{Replied};
ghost use Rattle.report.specs.Answers.{ReplyDone};
ghost use Rattle.replies.specs.Lines.{numbers_line};
ghost use Rattle.replies.specs.Replying.{into};
ghost use Rattle.call_replies.specs.Worst.{worst_text, worst_reply, worst_needed};

use call_replies::WORST_NEEDED;
use refusal::Refusal;
use text::{GivenEnd, TextRefusal};

// Puts the nodes at the start of `numbers`.
fn widen(nodes: &[u8], numbers: &mut [usize])
    requires { length nodes.now ≤ length numbers.old }
    ensures { numbers.new ≡ over_start nodes.now numbers.old }
{
    for (i, node) in nodes.iter().enumerate() {
        numbers[i] = usize::from(*node);
    }
}

// Puts the line of a number and a set of nodes at the start of `out`, and answers its length.
fn put_set(number: usize, nodes: &[u8], out: &mut [u8]) -> usize
    requires nodes_len_bound { length nodes.now ≤ 255 }
    requires worst_needed_in_bounds { worst_needed ≤ length out.old }
    ensures { Replied (numbers_line number nodes.now) result out.old out.new }
{
    let size = nodes.len();
    let mut numbers = [0usize; 255];
    widen(nodes, &mut numbers);
    reply_lines::put_numbers(out, 0, number, &numbers[0..size])
}

// Puts the line of a placement's true worst case, or of the refusal, at the start of `out`, and answers its length.
fn worst_text(placement: &[u8], out: &mut [u8]) -> usize
    requires { worst_needed ≤ length out.old }
    ensures { Replied (worst_text placement.now) result out.old out.new }
{
    let order = reply_order::order_of(placement);
    let k = order.k;
    let mut nodes = [0u8; 255];
    let answer = worst_code::worst_case(placement, &mut nodes);
    match answer {
        Err(e) => report_lines::refused_line(out, e),
        Ok(number) => put_set(number, &nodes[0..k], out),
    }
}

// Puts what `worst` prints at the start of `out`, and answers its length.
fn worst_given(arguments: &[u8], input: &[u8], out: &mut [u8]) -> usize
    requires { worst_needed ≤ length out.old }
    ensures { Replied (worst_reply arguments.now input.now) result out.old out.new }
{
    let given = text_code::read_given(arguments, input, 0);
    let end = given.end;
    match end {
        GivenEnd::Unread(i) => report_lines::refused_line(out, Refusal::BadOrder(i)),
        GivenEnd::Extra => reply_lines::text_line(out, TextRefusal::Arguments(0)),
        GivenEnd::File(place) => worst_text(&input[place..], out),
    }
}

// Puts what `worst` prints for its arguments and the input at the start of `out`, and answers its length; a slice of fewer than
// 5,376 bytes is refused.
pub fn worst_reply(arguments: &[u8], input: &[u8], out: &mut [u8]) -> Result<usize, Refusal>
    ensures { ReplyDone
        (into worst_needed (worst_reply arguments.now input.now) (length out.old))
        out.old out.new result }
{
    if out.len() < WORST_NEEDED {
        return Err(Refusal::ShortOutput(WORST_NEEDED));
    }
    let length = worst_given(arguments, input, out);
    Ok(length)
}
