// The sets of all rows: counting their sums, and keeping the rows with a sum that comes too often.
ghost use Rattle.std.specs.Prelude.{map};
ghost use Rattle.lists.specs.Lists.{total};
ghost use Rattle.packing.specs.Rows.{rows_at};
ghost use Rattle.crowding_pairs.specs.Codes.{Raised};
ghost use Rattle.crowding_sums.specs.Sums.{leaving_row, in_cell, is_kept, SetsFit, ToCount, ToKeep, KeptRows, Sifted};

use crate::Sets;
use crate::count::count_row;
use crate::most::most_of_row;
use crate::weights::WEIGHTS;

// Counts the sums of each row's sets that have d nodes less than the row.
fn count_rows(rows: &[u8], c: usize, r: usize, d: usize, weights: &[u16], table: &mut [u16])
    requires { ToCount rows.now c r d weights.now table.old }
    ensures { Raised (λ p. total (map (leaving_row weights.now (in_cell p) d) (rows_at r c rows.now)))
        table.old table.new }
{
    for i in 0..c {
        let at = i * r;
        let end = at + r;
        count_row(&rows[at..end], weights, d, table);
    }
}

// The same. For numbers that are written out the compiler lays out the whole row.
fn count_all(rows: &[u8], c: usize, r: usize, d: usize, weights: &[u16], table: &mut [u16])
    requires { ToCount rows.now c r d weights.now table.old }
    ensures { Raised (λ p. total (map (leaving_row weights.now (in_cell p) d) (rows_at r c rows.now)))
        table.old table.new }
{
    match (r, d) {
        (5, 2) => count_rows(rows, c, 5, 2, weights, table),
        (5, 1) => count_rows(rows, c, 5, 1, weights, table),
        (5, 0) => count_rows(rows, c, 5, 0, weights, table),
        (4, 1) => count_rows(rows, c, 4, 1, weights, table),
        (4, 0) => count_rows(rows, c, 4, 0, weights, table),
        _ => count_rows(rows, c, 3, 0, weights, table),
    }
}

// Writes the rows that have such a set, whose sum comes more than `bound` times, to the start of `kept`, and answers how many they are.
fn keep_counted(
    rows: &[u8],
    sets: Sets,
    r: usize,
    d: usize,
    weights: &[u16],
    table: &[u16],
    kept: &mut [u8],
) -> usize
    requires { ToKeep rows.now sets.c r d weights.now table.now kept.old }
    ensures { KeptRows (is_kept weights.now table.now sets.bound d)
        (rows_at r sets.c rows.now) r result kept.new }
{
    let mut m: usize = 0;
    let mut to: usize = 0;
    for i in 0..sets.c {
        let at = i * r;
        let end = at + r;
        if most_of_row(&rows[at..end], weights, d, table) > sets.bound {
            rows_writer::copy_bytes(&mut kept[to..], &rows[at..end]);
            to += r;
            m += 1;
        }
    }
    m
}

// The same, laid out as above.
fn keep_all(
    rows: &[u8],
    sets: Sets,
    r: usize,
    d: usize,
    weights: &[u16],
    table: &[u16],
    kept: &mut [u8],
) -> usize
    requires { ToKeep rows.now sets.c r d weights.now table.now kept.old }
    ensures { KeptRows (is_kept weights.now table.now sets.bound d)
        (rows_at r sets.c rows.now) r result kept.new }
{
    match (r, d) {
        (5, 2) => keep_counted(rows, sets, 5, 2, weights, table, kept),
        (5, 1) => keep_counted(rows, sets, 5, 1, weights, table, kept),
        (5, 0) => keep_counted(rows, sets, 5, 0, weights, table, kept),
        (4, 1) => keep_counted(rows, sets, 4, 1, weights, table, kept),
        (4, 0) => keep_counted(rows, sets, 4, 0, weights, table, kept),
        _ => keep_counted(rows, sets, 3, 0, weights, table, kept),
    }
}

// Writes some of the rows to the start of `kept`, and answers how many: no set stands together too often in all rows if none does in
// these. A row is left out where the sum of weights of each of its sets comes at most `bound` times in all rows: no set comes
// more often than its sum.
pub fn keep_rows(rows: &[u8], r: usize, sets: Sets, kept: &mut [u8]) -> usize
    requires { SetsFit rows.now r sets kept.old }
    ensures { Sifted r sets rows.now result kept.new }
{
    let d = r - 1 - sets.x;
    let weights = WEIGHTS;
    let mut table = [0u16; 65536];
    count_all(rows, sets.c, r, d, &weights, &mut table);
    keep_all(rows, sets, r, d, &weights, &table, kept)
}
