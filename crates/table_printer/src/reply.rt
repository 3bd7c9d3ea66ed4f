// The reply of the program `table`, put into a slice that a caller lends.
ghost use Rattle.std.specs.Prelude.{◌≤◌, length};
ghost use Rattle.report.specs.Answers.{ReplyDone};
ghost use Rattle.report.specs.Replies.{Replied};
ghost use Rattle.replies.specs.Replying.{into};
ghost use Rattle.table.specs.Printing.{table_reply, table_most, PackHeld, held_text};

use layers::{Dark, LayerHead};
use pack::PackHead;
use refusal::Refusal;
use table::TABLE_MOST;

// Puts the text of a pack at the start of `out`, and answers its length.
fn put_table(
    out: &mut [u8],
    rows: &[u8],
    head: PackHead,
    heads: [LayerHead; 5],
    dark: Dark,
) -> usize
    requires pack_held { PackHeld head heads dark rows.now }
    requires table_most_in_bounds { table_most ≤ length out.old }
    ensures { Replied (held_text head heads dark rows.now) result out.old out.new }
{
    let n = head.n;
    let r = head.r;
    let numbers = [n, r];
    let first = line_printer::put_line(out, 0, b"table", &numbers);
    let second = line_printer::put_out(out, first, dark);
    crate::layers_text::put_layers(out, second, rows, heads, r)
}

// Puts the text of a pack's bytes, or the line of their refusal, at the start of `out`, and answers its length.
fn table_line(input: &[u8], out: &mut [u8]) -> usize
    requires { table_most ≤ length out.old }
    ensures { Replied (table_reply input.now) result out.old out.new }
{
    let check = pack_code::check_pack(input);
    let answer = check.answer;
    let heads = check.layers;
    let dark = check.dark;
    match answer {
        Err(e) => report_lines::refused_line(out, e),
        Ok(head) => {
            let first = head.first;
            put_table(out, &input[first..], head, heads, dark)
        }
    }
}

// Puts what `table` prints for the input at the start of `out`, and answers its length; a slice of fewer than 90,112 bytes is
// refused.
pub fn table_reply(input: &[u8], out: &mut [u8]) -> Result<usize, Refusal>
    ensures { ReplyDone (into table_most (table_reply input.now) (length out.old)) out.old out.new result }
{
    if out.len() < TABLE_MOST {
        return Err(Refusal::ShortOutput(TABLE_MOST));
    }
    let length = table_line(input, out);
    Ok(length)
}
