// The order of all rows: refusal 6.
ghost use Rattle.std.specs.Prelude.{◌≡◌, cond, ◌+◌, ◌*◌, ◌≤◌, length, drop, T, Ok};
ghost use Rattle.lists.specs.Lists.{All};
ghost use Rattle.refusal.specs.Checked.{verdict};
ghost use Rattle.packing.specs.Rows.{is_in_order, rows_at};
ghost use Rattle.packing.specs.Load.{most};
ghost use Rattle.layers.specs.Layers.{check_ascending};
ghost use Rattle.layers.specs.Answers.{site_of};

use crate::RowsCheck;
use crowding_code::row_start;
use layers::Base;
use refusal::Refusal;

// Refusal 6 over the rows that start at `at`. The first `start` rows are known to be in order.
pub fn check_ascending(
    bytes: &[u8],
    at: usize,
    base: Base,
    rows: usize,
    start: usize,
) -> Result<(), Refusal>
    requires r_in_bounds { at + rows * base.r ≤ length bytes.now }
    requires start_le_rows { start ≤ rows }
    requires all { All (λ row. T (is_in_order base.n row)) (rows_at base.r start (drop at bytes.now)) }
    ensures { result
        ≡ verdict (check_ascending (site_of base) at (rows_at base.r rows (drop at bytes.now))) }
{
    let n = base.n;
    let r = base.r;
    let bad = rows_code::first_bad(&bytes[at..], rows, r, n, start);
    if let Some(row) = bad {
        return Err(Refusal::BadRow(row_start(at, r, row)));
    }
    Ok(())
}

// How many rows are known to be in order after a pass over the first c of them.
fn passed(good: bool, c: usize) -> usize
    ensures { result ≡ cond good c 0 }
{
    if good { c } else { 0 }
}

// Refusal 6 over the rows that start at `at`, and the load of the first c of them, which are counted as their order is tested.
pub(crate) fn check_order(bytes: &[u8], at: usize, base: Base, rows: usize, c: usize) -> RowsCheck
    requires r_in_bounds { at + rows * base.r ≤ length bytes.now }
    requires c_le_rows { (c ≤ rows) × (rows ≤ 4_096) × (base.r ≤ 5) }
    ensures verdict_value { result.verdict
        ≡ verdict (check_ascending (site_of base) at (rows_at base.r rows (drop at bytes.now))) }
    ensures load_value { result.verdict ≡ Ok tt → result.load ≡ most 256 (rows_at base.r c (drop at bytes.now)) }
{
    let first = rows_load::ordered_load(&bytes[at..], c, base.r, base.n);
    let start = passed(first.good, c);
    let verdict = check_ascending(bytes, at, base, rows, start);
    let load = first.load;
    RowsCheck { verdict, load }
}
