// A number in decimal, put into a slice that a caller lends.
ghost use Rattle.std.specs.Prelude.{◌+◌, ◌≤◌, length};
ghost use Rattle.report.specs.Programs.{decimal};
ghost use Rattle.report_lines.specs.Put.{Put};

// Puts `n` in decimal at `at`, and answers the place after it.
pub fn put_decimal(out: &mut [u8], at: usize, n: usize) -> usize
    requires { at + length (decimal n) ≤ length out.old }
    ensures { Put (decimal n) out.old at result out.new }
{
    if n < 10 {
        out[at] = (48 + n) as u8;
        return at + 1;
    }
    let last = put_decimal(out, at, n / 10);
    out[last] = (48 + n % 10) as u8;
    last + 1
}
