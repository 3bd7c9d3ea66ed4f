// The order of a row's nodes, and the first row of bytes that is out of order.
#![tactic(auto)]

mod sixteen;

ghost use Rattle.std.specs.Prelude.{◌≡◌, ◌*◌, ◌≤◌, ◌<◌, length, T, ltb};
ghost use Rattle.lists.specs.Lists.{All};
ghost use Rattle.packing.specs.Rows.{is_in_order, rows_at, first_bad};
ghost use Rattle.packing.specs.Answers.{row_found};
ghost use Rattle.rows_code.specs.Marks.{marks_of};

use packing::{Node, Record};
pub use rows_writer::{copy_bytes, write_rows};

// Whether the second node's number is above the first one's.
fn ascend(a: Node, b: Node) -> bool
    ensures { result ≡ ltb a.0 b.0 }
{
    a.0 < b.0
}

// Whether the node is one of n nodes.
fn is_below(node: Node, n: usize) -> bool
    ensures { result ≡ ltb node.0 n }
{
    usize::from(node.0) < n
}

// Whether the row's nodes are strictly ascending and all below n: of ascending nodes only the last is compared with n.
pub fn row_in_order(row: &[u8], n: usize) -> bool
    ensures { result ≡ is_in_order n row.now }
{
    let Some((first, others)) = row.split_first() else {
        return true;
    };
    let mut last = Node(*first);
    for v in others {
        let node = Node(*v);
        if !ascend(last, node) {
            return false;
        }
        last = node;
    }
    is_below(last, n)
}

// The first of the c rows of r bytes that is not strictly ascending or has a node at or above n. The first `start` rows are in order.
fn bad_row(rows: &[u8], c: usize, r: usize, n: usize, start: usize) -> Option<Record>
    requires r_in_bounds { c * r ≤ length rows.now }
    requires start_le_c { start ≤ c }
    requires all { All (λ row. T (is_in_order n row)) (rows_at r start rows.now) }
    ensures { result ≡ row_found (first_bad n (rows_at r c rows.now)) }
{
    for j in start..c {
        let at = j * r;
        let end = at + r;
        if !row_in_order(&rows[at..end], n) {
            return Some(Record(j));
        }
    }
    None
}

// The same, past sixteen rows at a time as long as they are in order.
fn bad_of(rows: &[u8], c: usize, r: usize, n: usize, start: usize, marks: &[u8]) -> Option<Record>
    requires r_nonzero { 0 < r }
    requires r_in_bounds { c * r ≤ length rows.now }
    requires start_le_c { start ≤ c }
    requires all { All (λ row. T (is_in_order n row)) (rows_at r start rows.now) }
    requires marks_value { marks.now ≡ marks_of r 16 }
    ensures { result ≡ row_found (first_bad n (rows_at r c rows.now)) }
{
    let passed = sixteen::past_sixteens(rows, c, r, n, start, marks);
    bad_row(rows, c, r, n, passed)
}

// The first of the c rows of r bytes that is not strictly ascending or has a node at or above n. The first `start` rows are in order,
// and are not looked at again. For a length that is written as a number the compiler lays out the whole row, and the bytes of sixteen
// rows. The marks are 255 at each row's last byte and 0 elsewhere, eight rows to a line.
#[tactic(auto, unfolding(crate::specs::Marks::row_marks, crate::specs::Marks::marks_of))]
pub fn first_bad(rows: &[u8], c: usize, r: usize, n: usize, start: usize) -> Option<Record>
    requires r_in_bounds { c * r ≤ length rows.now }
    requires start_le_c { start ≤ c }
    requires all { All (λ row. T (is_in_order n row)) (rows_at r start rows.now) }
    ensures { result ≡ row_found (first_bad n (rows_at r c rows.now)) }
{
    match r {
        5 => {
            let marks =
                b"\0\0\0\0\xff\0\0\0\0\xff\0\0\0\0\xff\0\0\0\0\xff\0\0\0\0\xff\0\0\0\0\xff\0\0\0\0\xff\0\0\0\0\xff\
                \0\0\0\0\xff\0\0\0\0\xff\0\0\0\0\xff\0\0\0\0\xff\0\0\0\0\xff\0\0\0\0\xff\0\0\0\0\xff\0\0\0\0\xff";
            bad_of(rows, c, 5, n, start, marks)
        }
        4 => {
            let marks =
                b"\0\0\0\xff\0\0\0\xff\0\0\0\xff\0\0\0\xff\0\0\0\xff\0\0\0\xff\0\0\0\xff\0\0\0\xff\
                \0\0\0\xff\0\0\0\xff\0\0\0\xff\0\0\0\xff\0\0\0\xff\0\0\0\xff\0\0\0\xff\0\0\0\xff";
            bad_of(rows, c, 4, n, start, marks)
        }
        3 => {
            let marks = b"\0\0\xff\0\0\xff\0\0\xff\0\0\xff\0\0\xff\0\0\xff\0\0\xff\0\0\xff\
                \0\0\xff\0\0\xff\0\0\xff\0\0\xff\0\0\xff\0\0\xff\0\0\xff\0\0\xff";
            bad_of(rows, c, 3, n, start, marks)
        }
        2 => {
            let marks = b"\0\xff\0\xff\0\xff\0\xff\0\xff\0\xff\0\xff\0\xff\
                \0\xff\0\xff\0\xff\0\xff\0\xff\0\xff\0\xff\0\xff";
            bad_of(rows, c, 2, n, start, marks)
        }
        _ => bad_row(rows, c, r, n, start),
    }
}
