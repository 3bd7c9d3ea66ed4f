// The order of rows and their load in one pass: a count waits for its cell, and the comparisons are made meanwhile.
ghost use Rattle.std.specs.Prelude.{◌*◌, ◌≤◌, length};
ghost use Rattle.rows_load.specs.Counts.{Ordered};

// What a pass over rows gives: whether all are in order, and, where they are, the largest number of them that hold one node.
#[derive(Clone, Copy)]
pub struct OrderedLoad {
    pub good: bool,
    pub load: usize,
}

// The same, of rows of any length.
fn load_of(rows: &[u8], c: usize, r: usize, n: usize) -> OrderedLoad
    requires { (c ≤ 4_096) × (r ≤ 5) × (c * r ≤ length rows.now) }
    ensures { Ordered n r c rows.now result.good result.load }
{
    let mut counts = [0u16; 256];
    for j in 0..c {
        let at = j * r;
        let end = at + r;
        if !rows_code::row_in_order(&rows[at..end], n) {
            return OrderedLoad {
                good: false,
                load: 0,
            };
        }
        crate::count_bytes(rows, at, end, &mut counts);
    }
    let load = crate::largest_count(&counts[0..256]);
    OrderedLoad { good: true, load }
}

// Whether the c rows of r bytes are strictly ascending with nodes below n, and their load. For a length that is written as a number the
// compiler lays out the whole row.
pub fn ordered_load(rows: &[u8], c: usize, r: usize, n: usize) -> OrderedLoad
    requires { (c ≤ 4_096) × (r ≤ 5) × (c * r ≤ length rows.now) }
    ensures { Ordered n r c rows.now result.good result.load }
{
    match r {
        5 => load_of(rows, c, 5, n),
        4 => load_of(rows, c, 4, n),
        3 => load_of(rows, c, 3, n),
        2 => load_of(rows, c, 2, n),
        _ => load_of(rows, c, r, n),
    }
}
