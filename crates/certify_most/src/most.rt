// The largest number of rows that hold one set of x+1 nodes: nodes are counted, larger sets grown a node at a time.
ghost use Rattle.std.specs.Prelude.{◌≡◌, ◌<◌};
ghost use Rattle.packing.specs.Rows.{rows_at};
ghost use Rattle.certify.specs.Asked.{RowsAsked};
ghost use Rattle.certify.specs.Certify.{most_together};

use crowding::Level;

// In how many of the c rows of r bytes some x+1 nodes stand together, at most.
pub fn most_together(rows: &[u8], c: usize, r: usize, x: usize) -> usize
    requires rows_asked { RowsAsked r c rows.now }
    requires x_lt_r { x < r }
    ensures { result ≡ most_together x (rows_at r c rows.now) }
{
    if x == 0 {
        return rows_load::most_load(rows, c, r, 256);
    }
    let end = c * r;
    let level = Level { r, w: x };
    crowding_most::most_held(&rows[0..end], c, level)
}
