// Lines of numbers alone, and the line of a refusal of text.
#![tactic(auto)]

ghost use Rattle.std.specs.Prelude.{◌++◌, ◌∷◌, [], ◌+◌, ◌*◌, ◌≤◌, length};
ghost use Rattle.report.specs.Programs.{rest, refused_word};
ghost use Rattle.report.specs.Replies.{Replied, line_needed};
ghost use Rattle.report_lines.specs.Put.{Put};
ghost use Rattle.replies.specs.Lines.{numbers_line, text_line};

use text::TextRefusal;

// Puts the line of these numbers at `at`, and answers the place after it.
pub fn put_numbers(out: &mut [u8], at: usize, first: usize, others: &[usize]) -> usize
    requires { at + 21 * length others.now + 21 ≤ length out.old }
    ensures { Put (numbers_line first others.now) out.old at result out.new }
{
    let next = report_lines::put_decimal(out, at, first);
    report_lines::put_rest(out, next, others)
}

// Puts the line `refused number place` at the start of `out`, and answers its length.
fn refused_with(out: &mut [u8], number: usize, place: usize) -> usize
    requires { line_needed ≤ length out.old }
    ensures { Replied (refused_word ++ rest (number ∷ place ∷ [])) result out.old out.new }
{
    let numbers = [number, place];
    report_lines::line(out, b"refused", &numbers)
}

// Puts the line of a refusal of text at the start of `out`, and answers its length.
pub fn text_line(out: &mut [u8], e: TextRefusal) -> usize
    requires { line_needed ≤ length out.old }
    ensures { Replied (text_line e) result out.old out.new }
{
    match e {
        TextRefusal::Arguments(most) => refused_with(out, 22, most),
        TextRefusal::Unreadable(line) => refused_with(out, 23, line),
        TextRefusal::TooLong(most) => refused_with(out, 24, most),
    }
}
