// The reply of the program `pack`, put into a slice that a caller lends.
ghost use Rattle.std.specs.Prelude.{◌≤◌, length};
ghost use Rattle.report.specs.Answers.{ReplyDone};
ghost use Rattle.report.specs.Replies.{Replied};
ghost use Rattle.replies.specs.Replying.{into};
ghost use Rattle.table.specs.Reading.{pack_reply};
ghost use Rattle.table.specs.Progress.{pack_most};

use refusal::Refusal;
use table::PACK_MOST;

// Puts the pack of the input, or the line of its refusal, at the start of `out`, and answers its length.
fn pack_into(input: &[u8], out: &mut [u8]) -> usize
    requires { pack_most ≤ length out.old }
    ensures { Replied (pack_reply input.now) result out.old out.new }
{
    let mut numbers = [0usize; 600];
    let mut rows = [0u8; 20480];
    let mut lines = [0usize; 4096];
    let mut pack = [0u8; PACK_MOST];
    let packed = crate::maker::pack_input(input, &mut numbers, &mut rows, &mut lines, &mut pack);
    match packed {
        Ok(length) => {
            rows_writer::copy_bytes(out, &pack[0..length]);
            length
        }
        Err(e) => draft_code::fault_line(out, e),
    }
}

// Puts what `pack` writes for the input at the start of `out`, and answers its length; a slice of fewer than 21,760 bytes is refused.
pub fn pack_reply(input: &[u8], out: &mut [u8]) -> Result<usize, Refusal>
    ensures { ReplyDone (into pack_most (pack_reply input.now) (length out.old)) out.old out.new result }
{
    if out.len() < PACK_MOST {
        return Err(Refusal::ShortOutput(PACK_MOST));
    }
    let length = pack_into(input, out);
    Ok(length)
}
