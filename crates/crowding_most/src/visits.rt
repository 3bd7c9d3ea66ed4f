// Sets that grow a node at a time, level by level. The search's bound is the largest number so far: a chain that is no longer holds
// no set of more rows, and is left.
ghost use Rattle.crowding.specs.Visiting.{ChainToVisit, LevelToVisit};
ghost use Rattle.crowding_most.specs.Most.{ChainGrown, LevelGrown};

use crowding::{Chain, Level, Search};
use packing::Node;

// The larger of the bound and the largest number of rows that hold one set of the chain's node and as many more as the level has to
// come.
#[cycle(children_visit)]
fn visit(rows: &[u8], search: Search, chain: Chain, next: &mut [u16]) -> usize
    requires { ChainToVisit rows.now search chain next.old }
    ensures { ChainGrown rows.now search chain next.old next.new result }
{
    let level = search.level;
    let r = level.r;
    let w = level.w;
    let bound = search.bound;
    let head = chain.head;
    let count = chain.count;
    if w == 0 {
        return usize::from(count);
    }
    if w == 1 {
        return bound.max(crowding_counts::most_after(rows, level, chain, next));
    }
    let mut heads = [0u16; 256];
    let mut counts = [0u16; 256];
    let w = w - 1;
    let below = Level { r, w };
    let longest = crowding_chains::link_tails(rows, below, chain, &mut heads, &mut counts, next);
    if longest <= bound {
        return bound;
    }
    // Some chain is longer than the bound, so there is a node above the chain's.
    let above = rows[head as usize] + 1;
    let low = Node(above);
    let search = Search {
        level: below,
        low,
        ..search
    };
    children(rows, search, &heads, &counts, next)
}

// Visits each node of a level, from `low` to `high`, whose chain is longer than the largest number so far, the largest node first:
// what is linked then for a node are larger nodes, so the chains still to be visited stay.
#[cycle(children_visit)]
pub(crate) fn children(
    rows: &[u8],
    search: Search,
    heads: &[u16],
    counts: &[u16],
    next: &mut [u16],
) -> usize
    requires { LevelToVisit rows.now search heads.now counts.now next.old }
    ensures { LevelGrown rows.now search heads.now counts.now next.old next.new result }
{
    let bound = search.bound;
    let low = search.low;
    let high = search.high;
    let first = low.0 as usize;
    let mut v = high.0 as usize + 1;
    let mut most = bound;
    while v > first {
        v -= 1;
        let count = counts[v];
        if count as usize <= most {
            continue;
        }
        let head = heads[v];
        let chain = Chain { head, count };
        let search = Search {
            bound: most,
            ..search
        };
        most = visit(rows, search, chain, next);
    }
    most
}
