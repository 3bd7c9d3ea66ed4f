// The numbers of a line, put into a slice that a caller lends.
ghost use Rattle.std.specs.Prelude.{◌+◌, ◌*◌, ◌≤◌, length};
ghost use Rattle.report.specs.Programs.{rest};
ghost use Rattle.report_lines.specs.Put.{Put};

// Puts each number with a space before it at `at`, then a newline, and answers the place after it.
pub fn put_rest(out: &mut [u8], at: usize, numbers: &[usize]) -> usize
    requires { at + 21 * length numbers.now + 1 ≤ length out.old }
    ensures { Put (rest numbers.now) out.old at result out.new }
{
    let mut place = at;
    for n in numbers {
        out[place] = b' ';
        place = crate::decimal::put_decimal(out, place + 1, *n);
    }
    out[place] = b'\n';
    place + 1
}
