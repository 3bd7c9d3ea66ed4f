// The largest number of rows that hold one set of nodes.
ghost use Rattle.std.specs.Prelude.{◌≡◌, suc};
ghost use Rattle.packing.specs.Rows.{rows_at};
ghost use Rattle.crowding.specs.Tails.{row_tails};
ghost use Rattle.crowding.specs.Visiting.{RowsToSearch};
ghost use Rattle.crowding_most.specs.Most.{most_tails};

use crowding::{Level, Search};
use packing::Node;

// The largest number of the c rows that hold one set of w+1 nodes.
pub fn most_held(rows: &[u8], c: usize, level: Level) -> usize
    requires { RowsToSearch rows.now c level }
    ensures { result ≡ most_tails (suc level.w) (row_tails 0 (rows_at level.r c rows.now)) 0 }
{
    let mut heads = [0u16; 256];
    let mut counts = [0u16; 256];
    let mut next = [0u16; 20480];
    crowding_chains::link_rows(rows, c, level, &mut heads, &mut counts, &mut next);
    let low = Node(0);
    let high = crowding_extremes::highest(rows);
    let search = Search {
        level,
        bound: 0,
        low,
        high,
    };
    crate::visits::children(rows, search, &heads, &counts, &mut next)
}
