// The first record that holds a crowded set.
ghost use Rattle.std.specs.Prelude.{◌≡◌, suc, ◌≤◌, length};
ghost use Rattle.packing.specs.Rows.{rows_at};
ghost use Rattle.crowding.specs.Tails.{lowest_crowded, row_tails};
ghost use Rattle.crowding.specs.Visiting.{RowsToSearch};

use crowding::{Level, Search};
use packing::{Node, Record};

// The first of the c rows that holds a set of w+1 nodes in more than `bound` of them; record 65,536 where there is none. The chains'
// places are kept in `next`.
fn least_along(rows: &[u8], c: usize, level: Level, bound: usize, next: &mut [u16]) -> Record
    requires { RowsToSearch rows.now c level × (length rows.now ≤ length next.old) }
    ensures { result.0 ≡ lowest_crowded (suc level.w) bound (row_tails 0 (rows_at level.r c rows.now)) 65536 }
{
    let mut heads = [0u16; 256];
    let mut counts = [0u16; 256];
    crowding_chains::link_rows(rows, c, level, &mut heads, &mut counts, next);
    let low = Node(0);
    let high = crowding_extremes::highest(rows);
    let search = Search {
        level,
        bound,
        low,
        high,
    };
    let none = Record(65536);
    crate::visits::children(rows, search, &heads, &counts, next, none)
}

// The same. The places of few rows are few, and take less time to clear.
pub fn least_crowded(rows: &[u8], c: usize, level: Level, bound: usize) -> Record
    requires { RowsToSearch rows.now c level }
    ensures { result.0 ≡ lowest_crowded (suc level.w) bound (row_tails 0 (rows_at level.r c rows.now)) 65536 }
{
    if rows.len() <= 2560 {
        let mut few = [0u16; 2560];
        return least_along(rows, c, level, bound, &mut few);
    }
    let mut next = [0u16; 20480];
    least_along(rows, c, level, bound, &mut next)
}
