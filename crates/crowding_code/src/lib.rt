// The packing test on rows in bytes: of one layer, and layer by layer (`packings`).
#![tactic(auto)]

mod load;
mod packings;
mod place;
mod sizes;

ghost use Rattle.std.specs.Prelude.{◌≡◌, ◌*◌, ◌≤◌, ◌<◌, T, length};
ghost use Rattle.lists.specs.Lists.{All};
ghost use Rattle.packing.specs.Rows.{ascending, rows_at, first_crowded};
ghost use Rattle.packing.specs.Answers.{row_found};
ghost use Rattle.crowding_pairs.specs.Codes.{few_pairs};
ghost use Rattle.crowding_sums.specs.Sums.{Settles};

use crowding::Level;
use crowding_sums::Sets;
pub use load::first_load;
use packing::Record;
pub use packings::check_packings;
pub use place::row_start;
pub use sizes::{count_rows, first_size};

// Whether the sets are of two nodes, the rows many, and no pair of nodes stands in more than `bound` of them, by one count of the
// pairs in a table. For few rows the table would cost more than it spares.
fn few_pairs(rows: &[u8], c: usize, r: usize, x: usize, bound: usize) -> bool
    requires { (c ≤ 4096) × (r ≤ 5) × (c * r ≤ length rows.now) }
    ensures { result ≡ few_pairs x bound (rows_at r c rows.now) }
{
    if x != 1 {
        return false;
    }
    if c < 256 {
        return false;
    }
    crowding_pairs::most_pairs(rows, c, r) <= bound
}

// The first of the rows that is crowded, by the search for a crowded set.
fn search(rows: &[u8], c: usize, r: usize, x: usize, bound: usize) -> Option<Record>
    requires c_bound { (c ≤ 4096) × (r ≤ 5) × (x < r) × (c * r ≤ length rows.now) }
    requires order { All (λ row. T (ascending 0 row)) (rows_at r c rows.now) }
    ensures { result ≡ row_found (first_crowded x bound (rows_at r c rows.now)) }
{
    let end = c * r;
    let level = Level { r, w: x };
    let least = crowding_search::least_crowded(&rows[0..end], c, level, bound);
    if least.0 < 65536 {
        return Some(least);
    }
    None
}

// Whether the sets are of three nodes or more, the rows many, and none of those rows is crowded that are left when the sets are counted
// by the sums of weights. For few rows the table would cost more than it spares; where a row has ten sets and few rows may hold one, the
// search takes no longer for some more rows.
fn few_sums(rows: &[u8], c: usize, r: usize, x: usize, bound: usize) -> bool
    requires c_bound { (c ≤ 4096) × (r ≤ 5) × (x < r) × (c * r ≤ length rows.now) }
    requires order { All (λ row. T (ascending 0 row)) (rows_at r c rows.now) }
    ensures { Settles result x bound (rows_at r c rows.now) }
{
    if x < 2 {
        return false;
    }
    if c < 256 {
        return false;
    }
    if r == x + 3 && c < 1024 && bound < 8 {
        return false;
    }
    let mut kept = [0u8; 20480];
    let sets = Sets { c, x, bound };
    let m = crowding_sums::keep_rows(rows, r, sets, &mut kept);
    if m <= bound {
        return true;
    }
    let found = search(&kept, m, r, x, bound);
    if let Some(_) = found {
        return false;
    }
    true
}

// Refusal 7 of a layer: the first of c rows of r bytes, all ascending, that holds x+1 nodes which stand together in
// more than `bound` of the rows.
pub fn first_crowded(rows: &[u8], c: usize, r: usize, x: usize, bound: usize) -> Option<Record>
    requires limits { (c ≤ 4096) × (r ≤ 5) × (x < r) × (c * r ≤ length rows.now) }
    requires order { All (λ row. T (ascending 0 row)) (rows_at r c rows.now) }
    ensures { result ≡ row_found (first_crowded x bound (rows_at r c rows.now)) }
{
    if c <= bound {
        return None;
    }
    if few_pairs(rows, c, r, x, bound) {
        return None;
    }
    if few_sums(rows, c, r, x, bound) {
        return None;
    }
    search(rows, c, r, x, bound)
}
