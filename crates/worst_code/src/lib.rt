// The true worst case of a placement.
#![tactic(auto)]

mod limit;
mod rows;

ghost use Rattle.std.specs.Prelude.{length};
ghost use Rattle.worst.specs.Worst.{check_worst};
ghost use Rattle.worst.specs.Answers.{WorstDone};
ghost use Rattle.placement.specs.Answers.{rows_by_table};
ghost use Rattle.worst.specs.Asked.{RowsAsked, FeedersAsked, worst_from};

use placement::{FeederTable, Order, PlacementHead};
use refusal::Refusal;
use worst::Shape;

// The worst case of rows, where the sets are few enough and the output has room for one.
fn worst_of_rows(rows: &[u8], shape: Shape, order: Order, out: &mut [u8]) -> Result<usize, Refusal>
    requires { RowsAsked shape order rows.now }
    ensures { WorstDone (worst_from shape order rows.now (length out.old)) out.old out.new result }
{
    let n = shape.n;
    let k = order.k;
    let b = order.b;
    if !limit::few_sets(n, k, b) {
        return Err(Refusal::TooManySets);
    }
    if out.len() < k {
        return Err(Refusal::ShortOutput(k));
    }
    Ok(rows::fewest_usable(rows, shape, order, out))
}

// The worst case of rows of nodes by the feeders that they hang on.
fn worst_of_feeders(
    rows: &[u8],
    table: FeederTable,
    r: usize,
    order: Order,
    out: &mut [u8],
) -> Result<usize, Refusal>
    requires { FeedersAsked table r order rows.now }
    ensures { WorstDone (worst_from (record { n = table.number; r = r }) order (rows_by_table table.each r order.b rows.now) (length out.old)) out.old out.new result }
{
    let n = table.number;
    let each = table.each;
    let b = order.b;
    let mut fed = [0u8; 20480];
    feeders_code::feeder_rows(rows, &each, r, b, &mut fed);
    let end = b * r;
    worst_of_rows(&fed[0..end], Shape { n, r }, order, out)
}

// Checks a placement and finds the fewest records that stay usable whichever k of its nodes fail, over all sets of k nodes;
// answers this number, and puts the first set that leaves so few, in dictionary order, as k ascending bytes at the start of
// `out`. Refuses as `check_placement` does, then 17 where C(n,k) × b is above 16,777,216, then 11 where `out` has fewer than k
// bytes. In kind 6 feeders stand for nodes, and g for n.
//
// The number is the least over all failures of k nodes, and at least the figure: `j-worst` in `promises`.
pub fn worst_case(bytes: &[u8], out: &mut [u8]) -> Result<usize, Refusal>
    ensures { WorstDone (check_worst bytes.now (length out.old)) out.old out.new result }
{
    let check = placement_code::check_placement(bytes);
    let head = check.answer?;
    let table = check.feeders;
    let PlacementHead {
        n,
        r,
        s,
        k,
        b,
        first,
        ..
    } = head;
    let end = first + b * r;
    let order = Order { s, k, b };
    if table.number == 0 {
        return worst_of_rows(&bytes[first..end], Shape { n, r }, order, out);
    }
    worst_of_feeders(&bytes[first..end], table, r, order, out)
}
