// Sets that grow a node at a time, level by level.
ghost use Rattle.crowding.specs.Visiting.{ChainToVisit, ChainVisited, LevelToVisit, LevelVisited};

use crowding::{Chain, Level, Search};
use packing::{Node, Record};

// The first of record `least` and the records that hold a crowded set of the chain's node and as many more as the level has
// to come.
#[cycle(children_visit)]
fn visit(rows: &[u8], search: Search, chain: Chain, next: &mut [u16], least: Record) -> Record
    requires { ChainToVisit rows.now search chain next.old }
    ensures { ChainVisited rows.now search chain next.old least next.new result }
{
    let level = search.level;
    let r = level.r;
    let w = level.w;
    let bound = search.bound;
    let head = chain.head;
    if w == 0 {
        return crowding_extremes::lowest(r, chain, next, least);
    }
    if crowding_counts::most_after(rows, level, chain, next) <= bound {
        return least;
    }
    let mut heads = [0u16; 256];
    let mut counts = [0u16; 256];
    let w = w - 1;
    let below = Level { r, w };
    let most = crowding_chains::link_tails(rows, below, chain, &mut heads, &mut counts, next);
    if most <= bound {
        return least;
    }
    // Some chain is longer than the bound, so there is a node above the chain's.
    let above = rows[head as usize] + 1;
    let low = Node(above);
    let search = Search {
        level: below,
        low,
        ..search
    };
    children(rows, search, &heads, &counts, next, least)
}

// Visits each node of a level, from `low` to `high`, whose chain is longer than the bound, the largest first: what is
// linked then for a node are larger nodes, so the chains still to be visited stay.
#[cycle(children_visit)]
pub(crate) fn children(
    rows: &[u8],
    search: Search,
    heads: &[u16],
    counts: &[u16],
    next: &mut [u16],
    least: Record,
) -> Record
    requires { LevelToVisit rows.now search heads.now counts.now next.old }
    ensures { LevelVisited rows.now search heads.now counts.now next.old least
        next.new result }
{
    let bound = search.bound;
    let low = search.low;
    let high = search.high;
    let first = low.0 as usize;
    let mut v = high.0 as usize + 1;
    let mut found = least;
    // A while loop: a turn moves down to the next long chain.
    while v > first {
        v = crate::long::next_long(counts, first, v, bound);
        let count = counts[v];
        if count as usize <= bound {
            continue;
        }
        let head = heads[v];
        let chain = Chain { head, count };
        found = visit(rows, search, chain, next, found);
    }
    found
}
