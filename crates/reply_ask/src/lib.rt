// The reply of the program `ask`, put into a slice that a caller lends.
#![tactic(auto)]

ghost use Rattle.std.specs.Prelude.{◌≤◌, length, ◌++◌};
ghost use Rattle.planner.specs.Planning.{work_most};
ghost use Rattle.report.specs.Programs.{rest};
ghost use Rattle.report.specs.Replies.{Replied};
ghost use Rattle.report.specs.Answers.{ReplyDone};
ghost use Rattle.replies.specs.Replying.{into};
ghost use Rattle.call_replies.specs.Committing.{offered_word, ask_text, ask_reply, ask_needed};
ghost use Rattle.call_replies.specs.Offers.{eleven_of};

use call_replies::ASK_NEEDED;
use placement::Order;
use refusal::Refusal;
use replies::WORK_MOST;
use text::{GivenEnd, TextRefusal};

// Puts the line of an offer at the start of `out`, and answers its length.
fn offered_line(figure: usize, counts: [usize; 5], copies: [usize; 5], out: &mut [u8]) -> usize
    requires { ask_needed ≤ length out.old }
    ensures { Replied (offered_word ++ rest (eleven_of figure counts copies)) result out.old out.new }
{
    let numbers = [
        figure, counts[0], counts[1], counts[2], counts[3], counts[4], copies[0], copies[1],
        copies[2], copies[3], copies[4],
    ];
    report_lines::line(out, b"offered", &numbers)
}

// Puts the line of the offer, or of the refusal, at the start of `out`, and answers its length.
fn asked(pack: &[u8], order: Order, work: &mut [u16], out: &mut [u8]) -> usize
    requires work_most_in_bounds { work_most ≤ length work.old }
    requires ask_needed_in_bounds { ask_needed ≤ length out.old }
    ensures { Replied (ask_text order pack.now) result out.old out.new }
{
    let s = order.s;
    let k = order.k;
    let b = order.b;
    let result = ask_code::ask(pack, s, k, b, work);
    let answer = result.answer;
    let counts = result.counts;
    let copies = result.copies;
    match answer {
        Ok(figure) => offered_line(figure, counts, copies, out),
        Err(e) => report_lines::refused_line(out, e),
    }
}

// The same, with a working slice that is long enough for every order.
fn ask_text(pack: &[u8], order: Order, out: &mut [u8]) -> usize
    requires { ask_needed ≤ length out.old }
    ensures { Replied (ask_text order pack.now) result out.old out.new }
{
    let mut work = [0u16; WORK_MOST];
    asked(pack, order, &mut work, out)
}

// Puts what `ask` prints at the start of `out`, and answers its length.
fn ask_given(arguments: &[u8], input: &[u8], out: &mut [u8]) -> usize
    requires { ask_needed ≤ length out.old }
    ensures { Replied (ask_reply arguments.now input.now) result out.old out.new }
{
    let given = text_code::read_given(arguments, input, 3);
    let end = given.end;
    let values = given.values;
    match end {
        GivenEnd::Unread(i) => report_lines::refused_line(out, Refusal::BadOrder(i)),
        GivenEnd::Extra => reply_lines::text_line(out, TextRefusal::Arguments(3)),
        GivenEnd::File(place) => {
            let order = Order {
                s: values[0],
                k: values[1],
                b: values[2],
            };
            ask_text(&input[place..], order, out)
        }
    }
}

// Puts what `ask` prints for its arguments and the input at the start of `out`, and answers its length; a slice of fewer than 256
// bytes is refused.
pub fn ask_reply(arguments: &[u8], input: &[u8], out: &mut [u8]) -> Result<usize, Refusal>
    ensures { ReplyDone
        (into ask_needed (ask_reply arguments.now input.now) (length out.old))
        out.old out.new result }
{
    if out.len() < ASK_NEEDED {
        return Err(Refusal::ShortOutput(ASK_NEEDED));
    }
    let length = ask_given(arguments, input, out);
    Ok(length)
}
