// Sixteen rows at a time, with no exit between their bytes: the compiler then compares sixteen bytes at once.
ghost use Rattle.std.specs.Prelude.{◌≡◌, ◌+◌, ◌*◌, ◌≤◌, ◌<◌, min, max, length, T, ltb};
ghost use Rattle.lists.specs.Lists.{All};
ghost use Rattle.packing.specs.Rows.{is_in_order, rows_at};
ghost use Rattle.rows_code.specs.Marks.{marks_of, below_next};

// n as a byte. An n above 255 takes every byte, and 255 one less: the rows that have it are looked at one by one.
fn top_of(n: usize) -> u8
    ensures { result ≤ n }
{
    u8::try_from(n).unwrap_or(255)
}

// One comparison for both bounds: the next node, or the mark above it, and the top.
fn keeps_order(node: u8, next: u8, mark: u8, top: u8) -> bool
    ensures { result ≡ ltb node (min (max next mark) top) }
{
    node < next.max(mark).min(top)
}

// Whether each of the bytes from `at` on, one for each mark, is below the top and below the next byte or its mark.
fn all_below(rows: &[u8], at: usize, marks: &[u8], top: u8) -> bool
    requires { at + length marks.now < length rows.now }
    ensures { result ≡ below_next top rows.now at marks.now }
{
    let mut fine = true;
    for (i, mark) in marks.iter().enumerate() {
        let here = at + i;
        fine &= keeps_order(rows[here], rows[here + 1], *mark, top);
    }
    fine
}

// How many rows are passed, the first `start` rows, which are in order, and then sixteen at a time, as long as they are in order. The
// last of the c rows are left: each byte is held against the next one, and after the last there need be none.
pub(crate) fn past_sixteens(
    rows: &[u8],
    c: usize,
    r: usize,
    n: usize,
    start: usize,
    marks: &[u8],
) -> usize
    requires r_nonzero { 0 < r }
    requires r_in_bounds { c * r ≤ length rows.now }
    requires start_le_c { start ≤ c }
    requires all { All (λ row. T (is_in_order n row)) (rows_at r start rows.now) }
    requires marks_value { marks.now ≡ marks_of r 16 }
    ensures upper_bound { result ≤ c }
    ensures all_2 { All (λ row. T (is_in_order n row)) (rows_at r result rows.now) }
{
    let top = top_of(n);
    let mut j = start;
    let mut at = start * r;
    // A while loop: a turn moves on by sixteen rows, as long as more are left.
    while c - j > 16 {
        if !all_below(rows, at, marks, top) {
            return j;
        }
        at += marks.len();
        j += 16;
    }
    j
}
