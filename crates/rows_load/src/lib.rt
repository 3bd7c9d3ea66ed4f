// How many rows hold a node.
#![tactic(auto)]

mod ordered;

ghost use Rattle.std.specs.Prelude.{◌≡◌, ◌*◌, ◌≤◌, max, length, T};
ghost use Rattle.lists.specs.Lists.{All, largest};
ghost use Rattle.packing.specs.Rows.{ascending, is_in_order, rows_at};
ghost use Rattle.packing.specs.Load.{node_counts, most};
ghost use Rattle.rows_load.specs.Counts.{Counted};

pub use ordered::{OrderedLoad, ordered_load};

// Counts the bytes from `from` up to `end`, beside those before them that were counted.
fn count_bytes(bytes: &[u8], from: usize, end: usize, counts: &mut [u16])
    requires from_le_end { (from ≤ end) × (end ≤ length bytes.now) × (end ≤ 20_480) }
    requires counts_len { length counts.old ≡ 256 }
    requires counted { Counted bytes.now from counts.old }
    ensures { Counted bytes.now end counts.new }
{
    for seen in from..end {
        let v = usize::from(bytes[seen]);
        counts[v] += 1;
    }
}

// The largest of the counts, 0 where there is none.
#[tactic(auto, using(lists::proofs::Largest::largest_more, lists::proofs::Largest::largest_all))]
fn largest_count(counts: &[u16]) -> usize
    ensures { result ≡ largest counts.now }
{
    let mut most: u16 = 0;
    for n in counts {
        most = most.max(*n);
    }
    usize::from(most)
}

// How many of the c rows of r bytes hold node 0, how many node 1, and so on, by one pass over the rows. An ascending row has
// a node once, so that its bytes can be counted.
pub fn node_counts(rows: &[u8], c: usize, r: usize) -> [u16; 256]
    requires c_bound { (c ≤ 4_096) × (r ≤ 5) × (c * r ≤ length rows.now) }
    requires order { All (λ row. T (ascending 0 row)) (rows_at r c rows.now) }
    ensures { result ≡ node_counts r c rows.now }
{
    let mut counts = [0u16; 256];
    let total = c * r;
    count_bytes(rows, 0, total, &mut counts);
    counts
}

// The largest number of the c rows of r bytes that hold one of n nodes: the largest of the counts.
pub fn most_load(rows: &[u8], c: usize, r: usize, n: usize) -> usize
    requires c_bound { (c ≤ 4_096) × (r ≤ 5) × (c * r ≤ length rows.now) }
    requires n_bound { n ≤ 256 }
    requires all { All (λ row. T (is_in_order n row)) (rows_at r c rows.now) }
    ensures { result ≡ most n (rows_at r c rows.now) }
{
    let counts = node_counts(rows, c, r);
    largest_count(&counts[0..n])
}
