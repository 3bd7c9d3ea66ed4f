// The first row that names a node out of service, by marks of the nodes.
ghost use Rattle.std.specs.Prelude.{◌≡◌, ℕ, ◌*◌, ◌≤◌, ◌<◌, false, length, get_or, take};
ghost use Rattle.lists.specs.Lists.{All, any, first_where};
ghost use Rattle.packing.specs.Rows.{member, rows_at};
ghost use Rattle.packing.specs.Answers.{row_found};
ghost use Rattle.layers.specs.Layers.{first_naming};
ghost use Rattle.layers.specs.Answers.{dark_list, DarkFits};

use layers::Dark;
use packing::Record;

// Which of the numbers that a byte can have are among the first `count` nodes.
fn mark_nodes(count: usize, nodes: [usize; 255]) -> [bool; 256]
    requires count_bound { count ≤ 255 }
    requires all { All (λ v. v < 256) (take count nodes) }
    ensures { (v : ℕ) → get_or result v false ≡ member v (take count nodes) }
{
    let mut marks = [false; 256];
    for i in 0..count {
        let v = nodes[i];
        marks[v] = true;
    }
    marks
}

// Whether a node of the row is marked.
fn names_marked(row: &[u8], marks: &[bool]) -> bool
    requires { length marks.now ≡ 256 }
    ensures { result ≡ any (λ v. get_or marks.now v false) row.now }
{
    for place in 0..row.len() {
        let v = usize::from(row[place]);
        if marks[v] {
            return true;
        }
    }
    false
}

// The first of the c rows of r bytes with a marked node.
fn marked_row(rows: &[u8], c: usize, r: usize, marks: &[bool]) -> Option<Record>
    requires r_in_bounds { c * r ≤ length rows.now }
    requires marks_len { length marks.now ≡ 256 }
    ensures { result
        ≡ row_found (first_where (any (λ v. get_or marks.now v false)) (rows_at r c rows.now)) }
{
    let mut at: usize = 0;
    for j in 0..c {
        let end = at + r;
        if names_marked(&rows[at..end], marks) {
            return Some(Record(j));
        }
        at = end;
    }
    None
}

// The same. For a length that is written as a number the compiler lays out the whole row.
fn first_marked(rows: &[u8], c: usize, r: usize, marks: &[bool]) -> Option<Record>
    requires r_in_bounds { c * r ≤ length rows.now }
    requires marks_len { length marks.now ≡ 256 }
    ensures { result
        ≡ row_found (first_where (any (λ v. get_or marks.now v false)) (rows_at r c rows.now)) }
{
    match r {
        5 => marked_row(rows, c, 5, marks),
        4 => marked_row(rows, c, 4, marks),
        3 => marked_row(rows, c, 3, marks),
        _ => marked_row(rows, c, r, marks),
    }
}

// The first of the c rows of r bytes that names a node out of service. Most files have none, and then no row is looked at.
pub fn first_naming(rows: &[u8], c: usize, r: usize, dark: Dark) -> Option<Record>
    requires r_in_bounds { c * r ≤ length rows.now }
    requires dark_fits { DarkFits dark }
    ensures { result ≡ row_found (first_naming (dark_list dark) (rows_at r c rows.now)) }
{
    let count = dark.count;
    if count == 0 {
        return None;
    }
    let nodes = dark.nodes;
    let marks = mark_nodes(count, nodes);
    first_marked(rows, c, r, &marks)
}
