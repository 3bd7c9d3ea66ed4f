// The reply of the program `operator`, which plans for one of two operators, put into a slice that a caller lends.
#![tactic(auto)]

ghost use Rattle.std.specs.Prelude.{◌≡◌, ◌≤◌, length};
ghost use Rattle.planner.specs.Planning.{work_most, output_most};
ghost use Rattle.report.specs.Replies.{Replied};
ghost use Rattle.report.specs.Answers.{ReplyDone};
ghost use Rattle.replies.specs.Replying.{into};
ghost use Rattle.call_replies.specs.Operators.{operator_bad, operator_text, operator_reply};

use operators::SharedOrder;
use refusal::Refusal;
use replies::{OUTPUT_MOST, WORK_MOST};
use text::{GivenEnd, TextRefusal};

// The refusal of a number that can't be read: of s, of k, or of a wish.
fn bad(index: usize) -> Refusal
    ensures { result ≡ operator_bad index }
{
    if index < 2 {
        return Refusal::BadOrder(index);
    }
    Refusal::BadWish
}

// Puts the placement that is planned, or the line of the refusal, at the start of `out`, and answers its length.
fn planned(pack: &[u8], order: SharedOrder, work: &mut [u16], out: &mut [u8]) -> usize
    requires work_most_in_bounds { work_most ≤ length work.old }
    requires output_most_in_bounds { output_most ≤ length out.old }
    ensures { Replied (operator_text order pack.now) result out.old out.new }
{
    let result = operators_code::plan_operator(pack, order, work, out);
    let answer = result.answer;
    match answer {
        Ok(planned) => planned.length,
        Err(e) => report_lines::refused_line(out, e),
    }
}

// The same, with a working slice that is long enough for every order.
fn operator_text(pack: &[u8], order: SharedOrder, out: &mut [u8]) -> usize
    requires { output_most ≤ length out.old }
    ensures { Replied (operator_text order pack.now) result out.old out.new }
{
    let mut work = [0u16; WORK_MOST];
    planned(pack, order, &mut work, out)
}

// Puts what `operator` writes at the start of `out`, and answers its length.
fn operator_given(arguments: &[u8], input: &[u8], out: &mut [u8]) -> usize
    requires { output_most ≤ length out.old }
    ensures { Replied (operator_reply arguments.now input.now) result out.old out.new }
{
    let given = text_code::read_given(arguments, input, 4);
    let end = given.end;
    let values = given.values;
    match end {
        GivenEnd::Unread(i) => report_lines::refused_line(out, bad(i)),
        GivenEnd::Extra => reply_lines::text_line(out, TextRefusal::Arguments(4)),
        GivenEnd::File(place) => {
            let order = SharedOrder {
                s: values[0],
                k: values[1],
                wish: values[2],
                other: values[3],
            };
            operator_text(&input[place..], order, out)
        }
    }
}

// Puts what `operator` writes for its arguments and the input at the start of `out`, and answers its length; a slice of fewer than
// 20,928 bytes is refused.
pub fn operator_reply(arguments: &[u8], input: &[u8], out: &mut [u8]) -> Result<usize, Refusal>
    ensures { ReplyDone
        (into output_most (operator_reply arguments.now input.now) (length out.old))
        out.old out.new result }
{
    if out.len() < OUTPUT_MOST {
        return Err(Refusal::ShortOutput(OUTPUT_MOST));
    }
    let length = operator_given(arguments, input, out);
    Ok(length)
}
