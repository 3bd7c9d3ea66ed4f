// The reply of the program `replay`, put into a slice that a caller lends.
#![tactic(auto)]

ghost use Rattle.std.specs.Prelude.{◌≤◌, length};
ghost use Rattle.report.specs.Replies.{Replied, line_needed};
ghost use Rattle.report.specs.Answers.{ReplyDone};
ghost use Rattle.placement.specs.Placement.{check_placement};
ghost use Rattle.replies.specs.Replying.{into};
ghost use Rattle.logs.specs.Reading.{unread};
ghost use Rattle.logs.specs.Replying.{answer_line, replayed, replay_text, replay_reply};

use refusal::Refusal;
use replay::Replayed;
use report::LINE_NEEDED;
use text::TextRefusal;

// Puts the line of what a replay answers at the start of `out`, and answers its length.
fn lowest_line(answer: Replayed, out: &mut [u8]) -> usize
    requires { line_needed ≤ length out.old }
    ensures { Replied (answer_line answer) result out.old out.new }
{
    match answer {
        Replayed::Lowest(number, event) => reply_lines::put_numbers(out, 0, number, &[event]),
        Replayed::Quiet(number) => reply_lines::put_numbers(out, 0, number, &[]),
        Replayed::Refused(e) => report_lines::refused_line(out, e),
    }
}

// Puts the line of the placement's refusal, or else that of the log's text, at the start of `out`, and answers its length.
fn unread_line(placement: &[u8], e: TextRefusal, out: &mut [u8]) -> usize
    requires { line_needed ≤ length out.old }
    ensures { Replied (replayed (check_placement placement.now) placement.now (unread e)) result
        out.old out.new }
{
    let check = placement_code::check_placement(placement);
    let answer = check.answer;
    match answer {
        Ok(_) => reply_lines::text_line(out, e),
        Err(why) => report_lines::refused_line(out, why),
    }
}

// Puts the line of a log's replay on a placement, or of a refusal, at the start of `out`, and answers its length.
fn replay_text(log: &[u8], placement: &[u8], out: &mut [u8]) -> usize
    requires { line_needed ≤ length out.old }
    ensures { Replied (replay_text log.now placement.now) result out.old out.new }
{
    let read = logs_code::read_log(log);
    let end = read.end;
    let count = read.count;
    let events = read.events;
    match end {
        Err(e) => unread_line(placement, e, out),
        Ok(()) => {
            let answer = replay_array::replay_first(placement, events, count);
            lowest_line(answer, out)
        }
    }
}

// Puts what `replay` prints with so many arguments, of which the first names the log, at the start of `out`, and answers its length.
fn replay_named(named: usize, log: &[u8], placement: &[u8], out: &mut [u8]) -> usize
    requires { line_needed ≤ length out.old }
    ensures { Replied (replay_reply named log.now placement.now) result out.old out.new }
{
    if named == 1 {
        return replay_text(log, placement, out);
    }
    reply_lines::text_line(out, TextRefusal::Arguments(1))
}

// Puts what `replay` prints with so many arguments, for the log that the first names and a placement, at the start of `out`, and
// answers its length; a slice of fewer than 200 bytes is refused.
pub fn replay_reply(
    named: usize,
    log: &[u8],
    placement: &[u8],
    out: &mut [u8],
) -> Result<usize, Refusal>
    ensures { ReplyDone
        (into line_needed (replay_reply named log.now placement.now) (length out.old))
        out.old out.new result }
{
    if out.len() < LINE_NEEDED {
        return Err(Refusal::ShortOutput(LINE_NEEDED));
    }
    let length = replay_named(named, log, placement, out);
    Ok(length)
}
