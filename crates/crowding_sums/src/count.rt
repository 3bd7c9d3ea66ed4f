// Counting the sets of one row: the sum of its weights with none, one or two of its nodes left out.
ghost use Rattle.std.specs.Prelude.{◌≡◌, ◌≤◌, ◌<◌, length, get_or};
ghost use Rattle.lists.specs.Lists.{tally};
ghost use Rattle.crowding.specs.Chains.{AtMost};
ghost use Rattle.crowding_pairs.specs.Codes.{Raised};
ghost use Rattle.crowding_sums.specs.Sums.{weigh, leaving, leaving_row, in_cell, Room};

// A node's weight.
pub(crate) fn weight(weights: &[u16], v: u8) -> usize
    requires { v < length weights.now }
    ensures { result ≡ get_or weights.now v 0 }
{
    usize::from(weights[usize::from(v)])
}

// The sum of the nodes' weights.
pub(crate) fn sum_of(nodes: &[u8], weights: &[u16]) -> usize
    requires { (length nodes.now ≤ 5) × (length weights.now ≡ 256) }
    ensures { result ≡ weigh weights.now nodes.now }
{
    let mut sum: usize = 0;
    for v in nodes {
        sum += weight(weights, *v);
    }
    sum
}

// Counts the sum in its cell.
fn count_sum(sum: usize, table: &mut [u16])
    requires { (length table.old ≡ 65536) × AtMost 65534 table.old }
    ensures { Raised (λ p. tally (in_cell p sum) 0) table.old table.new }
{
    let cell = sum % 65536;
    table[cell] += 1;
}

// Counts the sums that are left with one of the nodes left out.
fn count_without_one(nodes: &[u8], weights: &[u16], sum: usize, table: &mut [u16])
    requires { Room weights.now sum 65000 nodes.now table.old }
    ensures { Raised (λ p. leaving weights.now (in_cell p) 1 sum nodes.now) table.old table.new }
{
    for v in nodes {
        let left = sum - weight(weights, *v);
        count_sum(left, table);
    }
}

// The same with two of them left out.
fn count_without_two(nodes: &[u8], weights: &[u16], sum: usize, table: &mut [u16])
    requires { Room weights.now sum 60000 nodes.now table.old }
    ensures { Raised (λ p. leaving weights.now (in_cell p) 2 sum nodes.now) table.old table.new }
{
    for (i, v) in nodes.iter().enumerate() {
        let left = sum - weight(weights, *v);
        count_without_one(&nodes[i + 1..], weights, left, table);
    }
}

// Counts the sums of the row's sets that have d nodes less than the row.
pub(crate) fn count_row(row: &[u8], weights: &[u16], d: usize, table: &mut [u16])
    requires d_bound { d ≤ 2 }
    requires room { Room weights.now (weigh weights.now row.now) 60000 row.now table.old }
    ensures { Raised (λ p. leaving_row weights.now (in_cell p) d row.now) table.old table.new }
{
    let sum = sum_of(row, weights);
    match d {
        0 => count_sum(sum, table),
        1 => count_without_one(row, weights, sum, table),
        _ => count_without_two(row, weights, sum, table),
    }
}
