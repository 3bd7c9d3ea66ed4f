// Rows and the nodes out of service, put into a slice that a caller lends. Each answers the place after it.
ghost use Rattle.std.specs.Prelude.{◌+◌, ◌*◌, ◌≤◌, ◌<◌, length, take};
ghost use mathlib.Core.List.{flatten, map};
ghost use Rattle.packing.specs.Rows.{rows_at};
ghost use Rattle.layers.specs.Answers.{dark_list};
ghost use Rattle.report.specs.Programs.{rest};
ghost use Rattle.report_lines.specs.Put.{Put};
ghost use Rattle.table.specs.Printing.{out_text};

use layers::Dark;

// Puts the lines of m rows of r bytes each at `at`.
pub fn put_rows(out: &mut [u8], at: usize, rows: &[u8], m: usize, r: usize) -> usize
    requires r_in_bounds { m * r ≤ length rows.now }
    requires r_bound { r ≤ 5 }
    requires rows_in_bounds { at + length (flatten (map rest (rows_at r m rows.now))) + 128 ≤ length out.old }
    ensures { Put (flatten (map rest (rows_at r m rows.now))) out.old at result out.new }
{
    let mut place = at;
    let mut from: usize = 0;
    // By places and not chunks_exact, since r may be 0: each row has its line even then.
    for _j in 0..m {
        let end = from + r;
        place = crate::parts::put_row(out, place, &rows[from..end]);
        from = end;
    }
    place
}

// Puts the line of the first `count` nodes at `at`.
fn put_listed(out: &mut [u8], at: usize, count: usize, nodes: [usize; 255]) -> usize
    requires count_nonzero { 0 < count }
    requires count_bound { count ≤ 255 }
    requires at_in_bounds { at + 6_000 ≤ length out.old }
    ensures { Put (out_text (take count nodes)) out.old at result out.new }
{
    crate::parts::put_line(out, at, b"out", &nodes[0..count])
}

// Puts the line of the nodes out of service at `at`; nothing where there is none.
pub fn put_out(out: &mut [u8], at: usize, dark: Dark) -> usize
    requires count_bound { dark.count ≤ 255 }
    requires at_in_bounds { at + 6_000 ≤ length out.old }
    ensures { Put (out_text (dark_list dark)) out.old at result out.new }
{
    let count = dark.count;
    let nodes = dark.nodes;
    if count == 0 {
        return at;
    }
    put_listed(out, at, count, nodes)
}
