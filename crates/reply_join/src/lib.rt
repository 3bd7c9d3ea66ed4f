// The reply of the program `join`, put into a slice that a caller lends.
#![tactic(auto)]

ghost use Rattle.std.specs.Prelude.{◌≤◌, ◌∷◌, [], length};
ghost use Rattle.planner.specs.Planning.{output_most};
ghost use Rattle.join.specs.Join.{join as join_of};
ghost use Rattle.report.specs.Replies.{Replied, line_needed};
ghost use Rattle.report.specs.Answers.{ReplyDone};
ghost use Rattle.replies.specs.Replying.{into};
ghost use Rattle.call_replies.specs.Join.{joined_text, join_reply, Told};

use refusal::Refusal;
use replies::OUTPUT_MOST;
use text::TextRefusal;

// Puts the line of a refusal at the start of `out`, and answers the length of what stands there.
fn tell(joined: Result<usize, Refusal>, out: &mut [u8]) -> usize
    requires { line_needed ≤ length out.old }
    ensures { Told joined result out.old out.new }
{
    match joined {
        Ok(length) => length,
        Err(e) => report_lines::refused_line(out, e),
    }
}

// Puts one pack, joined, or the line of the refusal, at the start of `out`, and answers its length.
fn one_text(first: &[u8], out: &mut [u8]) -> usize
    requires { output_most ≤ length out.old }
    ensures { Replied (joined_text (join_of (first.now ∷ []) (length out.old))) result
        out.old out.new }
{
    let joined = join_code::join_one(first, out);
    tell(joined, out)
}

// The same of two packs.
fn two_text(first: &[u8], second: &[u8], out: &mut [u8]) -> usize
    requires { output_most ≤ length out.old }
    ensures { Replied (joined_text (join_of (first.now ∷ second.now ∷ []) (length out.old))) result
        out.old out.new }
{
    let joined = join_code::join_two(first, second, out);
    tell(joined, out)
}

// The same of three.
fn three_text(first: &[u8], second: &[u8], third: &[u8], out: &mut [u8]) -> usize
    requires { output_most ≤ length out.old }
    ensures { Replied
        (joined_text (join_of (first.now ∷ second.now ∷ third.now ∷ []) (length out.old))) result
        out.old out.new }
{
    let joined = join_code::join_three(first, second, third, out);
    tell(joined, out)
}

// Puts what `join` writes for so many named files at the start of `out`, and answers its length.
fn join_text(named: usize, first: &[u8], second: &[u8], third: &[u8], out: &mut [u8]) -> usize
    requires { output_most ≤ length out.old }
    ensures { Replied
        (join_reply named first.now second.now third.now (length out.old)) result
        out.old out.new }
{
    if 3 < named {
        return reply_lines::text_line(out, TextRefusal::Arguments(3));
    }
    if named < 2 {
        return one_text(first, out);
    }
    if named == 2 {
        return two_text(first, second, out);
    }
    three_text(first, second, third, out)
}

// Puts what `join` writes for so many named files at the start of `out`, and answers its length; a slice of fewer than 20,928 bytes
// is refused.
pub fn join_reply(
    named: usize,
    first: &[u8],
    second: &[u8],
    third: &[u8],
    out: &mut [u8],
) -> Result<usize, Refusal>
    ensures { ReplyDone
        (into output_most
        (join_reply named first.now second.now third.now (length out.old))
        (length out.old))
        out.old out.new result }
{
    if out.len() < OUTPUT_MOST {
        return Err(Refusal::ShortOutput(OUTPUT_MOST));
    }
    let length = join_text(named, first, second, third, out);
    Ok(length)
}
