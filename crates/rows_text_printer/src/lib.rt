// Bare rows as text, and the reply of the program `listing`, put into a slice that a caller lends.
#![tactic(auto)]

ghost use Rattle.std.specs.Prelude.{◌≤◌, length};
ghost use Rattle.report.specs.Answers.{ReplyDone};
ghost use Rattle.report.specs.Replies.{Replied};
ghost use Rattle.certify.specs.Asked.{held_bare, BareHeld};
ghost use Rattle.table.specs.Printing.{table_most};
ghost use Rattle.replies.specs.Replying.{into};
ghost use Rattle.rows_text_print.specs.Printing.{rows_text, listing_reply};

use layers::Base;
use placement::Order;
use refusal::Refusal;
use table::TABLE_MOST;

// Puts the text of bare rows at the start of `out`, and answers its length.
fn put_listing(out: &mut [u8], rows: &[u8], base: Base, order: Order) -> usize
    requires bare_held { BareHeld base order rows.now }
    requires table_most_in_bounds { table_most ≤ length out.old }
    ensures { Replied (rows_text (held_bare base order rows.now)) result out.old out.new }
{
    let n = base.n;
    let r = base.r;
    let dark = base.dark;
    let s = order.s;
    let k = order.k;
    let b = order.b;
    let head = [n, r];
    let first = line_printer::put_line(out, 0, b"rows", &head);
    let second = line_printer::put_out(out, first, dark);
    let limits = [s, k];
    let third = line_printer::put_line(out, second, b"order", &limits);
    line_printer::put_rows(out, third, rows, b, r)
}

// Puts the text of a file of bare rows, or the line of its refusal, at the start of `out`, and answers its length.
fn listing_line(input: &[u8], out: &mut [u8]) -> usize
    requires { table_most ≤ length out.old }
    ensures { Replied (listing_reply input.now) result out.old out.new }
{
    match certify_reader::read_bare(input) {
        Err(e) => report_lines::refused_line(out, e),
        Ok(read) => put_listing(out, &input[read.first..], read.base, read.order),
    }
}

// Puts what `listing` prints for the input at the start of `out`, and answers its length; a slice of fewer than 90,112 bytes is
// refused.
//
// Of accepted bare rows `rows` makes the same file of what is printed: `printed-made` and `same_bytes` in `rows_text_print`.
pub fn listing_reply(input: &[u8], out: &mut [u8]) -> Result<usize, Refusal>
    ensures { ReplyDone (into table_most (listing_reply input.now) (length out.old)) out.old out.new result }
{
    if out.len() < TABLE_MOST {
        return Err(Refusal::ShortOutput(TABLE_MOST));
    }
    let length = listing_line(input, out);
    Ok(length)
}
