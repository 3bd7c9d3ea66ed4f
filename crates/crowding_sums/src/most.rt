// How often the sum of a row's set comes that comes most often.
ghost use Rattle.std.specs.Prelude.{◌≡◌, ◌%◌, ◌≤◌, length, get_or};
ghost use Rattle.crowding_sums.specs.Sums.{weigh, most_left, most_of, Looked};

use crate::count::{sum_of, weight};

// How often the sum comes.
fn cell(sum: usize, table: &[u16]) -> usize
    requires { length table.now ≡ 65536 }
    ensures { result ≡ get_or table.now (sum % 65536) 0 }
{
    usize::from(table[sum % 65536])
}

// The most of the sums that are left with one of the nodes left out.
fn most_without_one(nodes: &[u8], weights: &[u16], sum: usize, table: &[u16]) -> usize
    requires { Looked weights.now sum nodes.now table.now }
    ensures { result ≡ most_left weights.now table.now 1 sum nodes.now }
{
    let mut most: usize = 0;
    for v in nodes {
        let left = sum - weight(weights, *v);
        most = most.max(cell(left, table));
    }
    most
}

// The same with two of them left out.
fn most_without_two(nodes: &[u8], weights: &[u16], sum: usize, table: &[u16]) -> usize
    requires { Looked weights.now sum nodes.now table.now }
    ensures { result ≡ most_left weights.now table.now 2 sum nodes.now }
{
    let mut most: usize = 0;
    for (i, v) in nodes.iter().enumerate() {
        let left = sum - weight(weights, *v);
        most = most.max(most_without_one(&nodes[i + 1..], weights, left, table));
    }
    most
}

// The same of the row's sets that have d nodes less than the row.
pub(crate) fn most_of_row(row: &[u8], weights: &[u16], d: usize, table: &[u16]) -> usize
    requires d_bound { d ≤ 2 }
    requires looked { Looked weights.now (weigh weights.now row.now) row.now table.now }
    ensures { result ≡ most_of weights.now table.now d row.now }
{
    let sum = sum_of(row, weights);
    match d {
        0 => cell(sum, table),
        1 => most_without_one(row, weights, sum, table),
        _ => most_without_two(row, weights, sum, table),
    }
}
