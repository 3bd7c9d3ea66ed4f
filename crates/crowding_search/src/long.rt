// The next node whose chain is longer than the bound.
ghost use Rattle.std.specs.Prelude.{suc, ◌≤◌, ◌<◌, length};
ghost use Rattle.crowding.specs.Chains.{ShortFrom};

// Down from v, past blocks of sixteen nodes none of whose chains is longer than the bound: few nodes have such a chain, and
// the counts of a block are compared at once.
fn past_blocks(counts: &[u16], first: usize, v: usize, bound: usize) -> usize
    requires first_lt_v { first < v }
    requires v_in_bounds { v ≤ length counts.now }
    ensures lower_bound { first < result }
    ensures upper_bound { result ≤ v }
    ensures short_from { ShortFrom result v bound counts.now }
{
    let mut end = v;
    // A while loop: a turn moves down by sixteen nodes, as long as more are left.
    while end - first > 16 {
        let from = end - 16;
        if crowding_pairs::most_of(&counts[from..end]) as usize > bound {
            return end;
        }
        end = from;
    }
    end
}

// The largest node below v whose chain is longer than the bound, or `first`.
pub(crate) fn next_long(counts: &[u16], first: usize, v: usize, bound: usize) -> usize
    requires first_lt_v { first < v }
    requires v_in_bounds { v ≤ length counts.now }
    ensures upper_bound { result < v }
    ensures short_from { ShortFrom (suc result) v bound counts.now }
{
    let mut node = past_blocks(counts, first, v, bound);
    while node > first {
        node -= 1;
        if counts[node] as usize > bound {
            return node;
        }
    }
    node
}
