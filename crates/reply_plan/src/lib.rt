// The reply of the program `plan`, put into a slice that a caller lends.
#![tactic(auto)]

ghost use Rattle.std.specs.Prelude.{◌≤◌, length};
ghost use Rattle.planner.specs.Planning.{work_most, output_most};
ghost use Rattle.report.specs.Replies.{Replied};
ghost use Rattle.report.specs.Answers.{ReplyDone};
ghost use Rattle.replies.specs.Replying.{into};
ghost use Rattle.replies.specs.Plans.{plan_text, plan_program};

use placement::Order;
use refusal::Refusal;
use replies::{OUTPUT_MOST, WORK_MOST};
use text::{GivenEnd, TextRefusal};

// Puts the placement that is planned, or the line of the refusal, at the start of `out`, and answers its length.
fn planned(pack: &[u8], order: Order, work: &mut [u16], out: &mut [u8]) -> usize
    requires work_most_in_bounds { work_most ≤ length work.old }
    requires output_most_in_bounds { output_most ≤ length out.old }
    ensures { Replied (plan_text order pack.now) result out.old out.new }
{
    let s = order.s;
    let k = order.k;
    let b = order.b;
    let result = planner_code::plan(pack, s, k, b, work, out);
    let answer = result.answer;
    match answer {
        Ok(planned) => planned.length,
        Err(e) => report_lines::refused_line(out, e),
    }
}

// The same, with a working slice that is long enough for every order.
fn plan_text(pack: &[u8], order: Order, out: &mut [u8]) -> usize
    requires { output_most ≤ length out.old }
    ensures { Replied (plan_text order pack.now) result out.old out.new }
{
    let mut work = [0u16; WORK_MOST];
    planned(pack, order, &mut work, out)
}

// Puts what `plan` writes at the start of `out`, and answers its length.
fn plan_given(arguments: &[u8], input: &[u8], out: &mut [u8]) -> usize
    requires { output_most ≤ length out.old }
    ensures { Replied (plan_program arguments.now input.now) result out.old out.new }
{
    let given = text_code::read_given(arguments, input, 3);
    let end = given.end;
    let values = given.values;
    match end {
        GivenEnd::Unread(i) => report_lines::refused_line(out, Refusal::BadOrder(i)),
        GivenEnd::Extra => reply_lines::text_line(out, TextRefusal::Arguments(3)),
        GivenEnd::File(place) => {
            let order = Order {
                s: values[0],
                k: values[1],
                b: values[2],
            };
            plan_text(&input[place..], order, out)
        }
    }
}

// Puts what `plan` writes for its arguments and the input at the start of `out`, and answers its length; a slice of fewer than
// 20,928 bytes is refused.
pub fn plan_reply(arguments: &[u8], input: &[u8], out: &mut [u8]) -> Result<usize, Refusal>
    ensures { ReplyDone
        (into output_most (plan_program arguments.now input.now) (length out.old))
        out.old out.new result }
{
    if out.len() < OUTPUT_MOST {
        return Err(Refusal::ShortOutput(OUTPUT_MOST));
    }
    let length = plan_given(arguments, input, out);
    Ok(length)
}
