// The highest node of rows, and the least row number of a chain.
#![tactic(auto)]

ghost use Rattle.std.specs.Prelude.{◌≡◌, max, ◌<◌, length};
ghost use Rattle.lists.specs.Lists.{All, largest};
ghost use Rattle.crowding.specs.Chains.{lowest_at, positions};

use crowding::Chain;
use packing::{Node, Record};

// The highest node, node 0 where there is none; with no exit between the bytes, so that many are compared at once.
#[tactic(auto, using(lists::proofs::Largest::largest_more, lists::proofs::Largest::largest_all))]
pub fn highest(rows: &[u8]) -> Node
    ensures { result.0 ≡ largest rows.now }
{
    let mut high: u8 = 0;
    for v in rows {
        high = high.max(*v);
    }
    Node(high)
}

// The first of record `least` and the records that a chain's positions are in.
pub fn lowest(r: usize, chain: Chain, next: &[u16], least: Record) -> Record
    requires { (0 < r) × All (λ p. p < length next.now) (positions next.now chain) }
    ensures { result.0 ≡ lowest_at r least.0 (positions next.now chain) }
{
    let mut p = usize::from(chain.head);
    let mut low = least.0;
    for _ in 0..chain.count {
        low = low.min(p / r);
        p = usize::from(next[p]);
    }
    Record(low)
}
