// Counting the nodes of rows, for the last node of a set.
#![tactic(auto)]

ghost use Rattle.std.specs.Prelude.{◌≡◌, length};
ghost use Rattle.crowding.specs.Chains.{AtMost, largest_after, most_after, positions, tails_at};
ghost use Rattle.crowding.specs.Counting.{ChainToCount, SpanToCount, SpanCounted};

use crowding::{Chain, Level, Span};

// Counts the nodes of the span's positions; `most` is the largest count before, the result the largest after.
fn count_nodes(rows: &[u8], span: Span, counts: &mut [u16], most: usize) -> usize
    requires { SpanToCount rows.now span counts.old most }
    ensures { SpanCounted rows.now span counts.old counts.new result }
{
    let mut largest = most;
    for f in span.from..span.to {
        let v = usize::from(rows[f]);
        let n = counts[v] + 1;
        counts[v] = n;
        largest = largest.max(usize::from(n));
    }
    largest
}

// The largest number of tails after one node, where every node after a chain's positions counts.
fn count_tails(rows: &[u8], r: usize, chain: Chain, next: &[u16], counts: &mut [u16]) -> usize
    requires chain_to_count { ChainToCount rows.now r chain next.now }
    requires counts_len { (length counts.old ≡ 256) × AtMost 0 counts.old }
    ensures { result ≡ largest_after 0 (tails_at r rows.now (positions next.now chain)) }
{
    let mut p = usize::from(chain.head);
    let mut most: usize = 0;
    for _ in 0..chain.count {
        let from = p + 1;
        let to = (p / r + 1) * r;
        let span = Span { from, to };
        most = count_nodes(rows, span, counts, most);
        p = usize::from(next[p]);
    }
    most
}

// The largest number of tails after one node, of those after a chain's positions, where w is 1; the chain's length else: after
// no node are there more tails that leave w-1 nodes.
pub fn most_after(rows: &[u8], level: Level, chain: Chain, next: &[u16]) -> usize
    requires { ChainToCount rows.now level.r chain next.now }
    ensures { result ≡ most_after level.w (tails_at level.r rows.now (positions next.now chain)) }
{
    let r = level.r;
    let w = level.w;
    let count = chain.count;
    if w != 1 {
        return usize::from(count);
    }
    let mut counts = [0u16; 256];
    count_tails(rows, r, chain, next, &mut counts)
}
