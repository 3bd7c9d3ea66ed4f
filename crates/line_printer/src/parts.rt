// A line, put into a slice that a caller lends. Each answers the place after it.
ghost use Rattle.std.specs.Prelude.{◌+◌, ◌*◌, ◌≤◌, ◌≡◌, ◌++◌, length, take};
ghost use Rattle.report.specs.Programs.{rest};
ghost use Rattle.report_lines.specs.Put.{Put};

// Puts the bytes at `at`.
fn put_word(out: &mut [u8], at: usize, word: &[u8]) -> usize
    requires { at + length word.now ≤ length out.old }
    ensures { Put word.now out.old at result out.new }
{
    rows_writer::copy_bytes(&mut out[at..], word);
    at + word.len()
}

// Puts a word, each number with a space before it, and a newline at `at`.
pub fn put_line(out: &mut [u8], at: usize, word: &[u8], numbers: &[usize]) -> usize
    requires { at + length word.now + 21 * length numbers.now + 1 ≤ length out.old }
    ensures { Put (word.now ++ rest numbers.now) out.old at result out.new }
{
    let next = put_word(out, at, word);
    report_lines::put_rest(out, next, numbers)
}

// A row's nodes as numbers; entries past them are 0.
fn row_numbers(row: &[u8]) -> [usize; 5]
    requires { length row.now ≤ 5 }
    ensures { take (length row.now) result ≡ row.now }
{
    let mut numbers = [0usize; 5];
    for (i, node) in row.iter().enumerate() {
        numbers[i] = usize::from(*node);
    }
    numbers
}

// Puts a row's line at `at`: a line without a word.
pub(crate) fn put_row(out: &mut [u8], at: usize, row: &[u8]) -> usize
    requires row_len_bound { length row.now ≤ 5 }
    requires at_in_bounds { at + 128 ≤ length out.old }
    ensures { Put (rest row.now) out.old at result out.new }
{
    let r = row.len();
    let numbers = row_numbers(row);
    report_lines::put_rest(out, at, &numbers[0..r])
}
