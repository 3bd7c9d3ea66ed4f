// Lines of a word and numbers, put into a slice that a caller lends.
ghost use Rattle.std.specs.Prelude.{◌++◌, ◌+◌, ◌*◌, ◌≤◌, length};
ghost use Rattle.report.specs.Programs.{rest, accepted_line, refused_line};
ghost use Rattle.report.specs.Replies.{Replied, line_needed};

use refusal::Refusal;
use report::Summary;

// Puts the line of a word and numbers at the start of `out`, and answers its length.
pub fn line(out: &mut [u8], word: &[u8], numbers: &[usize]) -> usize
    requires { length word.now + 21 * length numbers.now + 1 ≤ length out.old }
    ensures { Replied (word.now ++ rest numbers.now) result out.old out.new }
{
    rows_writer::copy_bytes(out, word);
    crate::numbers::put_rest(out, word.len(), numbers)
}

// Puts the line of a refusal at the start of `out`, and answers its length.
pub fn refused_line(out: &mut [u8], e: Refusal) -> usize
    requires { line_needed ≤ length out.old }
    ensures { Replied (refused_line e) result out.old out.new }
{
    let number = refusal_code::number(e);
    let place = refusal_code::place(e);
    let numbers = [number, place];
    line(out, b"refused", &numbers)
}

// Puts the line of an accepted placement at the start of `out`, and answers its length.
pub fn accepted_line(out: &mut [u8], summary: Summary) -> usize
    requires { line_needed ≤ length out.old }
    ensures { Replied (accepted_line summary) result out.old out.new }
{
    let figure = summary.figure;
    let b = summary.b;
    let k = summary.k;
    let n = summary.n;
    let most = summary.most;
    let mean = summary.mean;
    let numbers = [figure, b, k, n, most, mean];
    line(out, b"accepted", &numbers)
}
