// Counting the pairs of all rows.
ghost use Rattle.std.specs.Prelude.{◌≡◌, max};
ghost use Rattle.lists.specs.Lists.{largest};
ghost use Rattle.packing.specs.Rows.{rows_at};
ghost use Rattle.crowding_pairs.specs.Codes.{RowsRoom, RowsFit, Raised, coded_rows, most_coded};

use crate::count::count_row;

// Counts the pairs of the nodes of each of the c rows.
fn count_rows(rows: &[u8], c: usize, r: usize, table: &mut [u16])
    requires { RowsRoom rows.now c r table.old }
    ensures { Raised (λ p. coded_rows p (rows_at r c rows.now)) table.old table.new }
{
    for i in 0..c {
        let at = i * r;
        let end = at + r;
        count_row(&rows[at..end], table);
    }
}

// The same. For a length that is written as a number the compiler lays out the whole row.
fn count_all(rows: &[u8], c: usize, r: usize, table: &mut [u16])
    requires { RowsRoom rows.now c r table.old }
    ensures { Raised (λ p. coded_rows p (rows_at r c rows.now)) table.old table.new }
{
    match r {
        5 => count_rows(rows, c, 5, table),
        4 => count_rows(rows, c, 4, table),
        3 => count_rows(rows, c, 3, table),
        2 => count_rows(rows, c, 2, table),
        _ => count_rows(rows, c, r, table),
    }
}

// The largest count, 0 where there is none; with no exit between the counts, so that many are compared at once.
#[tactic(auto, using(lists::proofs::Largest::largest_more, lists::proofs::Largest::largest_all))]
pub fn most_of(table: &[u16]) -> u16
    ensures { result ≡ largest table.now }
{
    let mut most: u16 = 0;
    for n in table {
        most = most.max(*n);
    }
    most
}

// The largest number of the c rows of r bytes that have one pair of nodes. The table is cleared and searched whole,
// so it is a triangle and not a square.
pub fn most_pairs(rows: &[u8], c: usize, r: usize) -> usize
    requires { RowsFit rows.now c r }
    ensures { result ≡ most_coded (rows_at r c rows.now) }
{
    let mut table = [0u16; 32896];
    count_all(rows, c, r, &mut table);
    usize::from(most_of(&table))
}
