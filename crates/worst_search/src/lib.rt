// Going through the sets of k nodes by choosing or leaving each node, with each record's replicas on failed nodes at hand.
#![tactic(auto)]

ghost use Rattle.std.specs.Prelude.{◌≡◌, ◌+◌, ◌-◌, ◌≤◌, ◌<◌, true, leb, length};
ghost use Rattle.worst.specs.Records.{Index};
ghost use Rattle.worst.specs.Searches.{Light, NextChosen, NoLower, Searched, Searching};

use packing::Node;
use worst::Search;
use worst_hits::{entries_of, lose, lower, raise};
use worst_last::last_node;
use worst_rest::choose_rest;
use worst_two::last_two;

// Whether `usable` records without `loss` of them are no fewer than `least`.
fn leaves(usable: usize, loss: usize, least: usize) -> bool
    ensures { result ≡ leb least (usable - loss) }
{
    least <= usable - loss.min(usable)
}

// Whether no set that has the next node can leave fewer than the least so far: each node after it loses at most `most` records. What the
// node itself loses is counted only where the others leave enough.
fn keeps(search: Search, most: usize, index: &[u16], hits: &[u8]) -> bool
    requires index { Index index.now (length hits.now) × Light index.now most }
    requires next_bound { (search.next.0 < 255) × (search.chosen < search.k) × (search.k ≤ 255) }
    ensures { result ≡ true → NoLower search most index.now hits.now }
{
    let usable = search.usable;
    let least = search.least;
    let loss = (search.k - search.chosen - 1) * most;
    if leaves(usable, loss, least) {
        let entries = entries_of(index, search.next);
        return leaves(usable, lose(search.s, index, entries, hits) + loss, least);
    }
    false
}

// Goes through the sets that have the next node, and as many more after it as are to come, if one of them can leave fewer.
#[cycle(choose_search)]
fn choose(
    search: Search,
    most: usize,
    index: &[u16],
    hits: &mut [u8],
    set: &mut [u8],
    out: &mut [u8],
) -> usize
    requires searching { Searching search index.now hits.old set.old out.old }
    requires light { Light index.now most }
    requires chosen_bound { search.chosen + 1 < search.k }
    ensures { NextChosen search index.now hits.old set.old out.old hits.new
        set.new out.new result }
{
    if keeps(search, most, index, hits) {
        return search.least;
    }
    let s = search.s;
    let node = search.next;
    let place = search.chosen;
    let usable = search.usable;
    let entries = entries_of(index, node);
    let usable = raise(s, usable, index, entries, hits);
    set[place] = node.0;
    let next = Node(node.0 + 1);
    let others = Search {
        next,
        chosen: place + 1,
        usable,
        ..search
    };
    let least = crate::search(others, most, index, hits, set, out);
    lower(index, entries, hits);
    least
}

// Goes through the sets of k nodes that have those chosen and others from the next node on: first the sets with the next node, then, as
// the loop goes on to the node after it, those without it, so that they come in dictionary order. Answers the fewest usable records so
// far, whose first set then stands at the start of `out`. Where just as many nodes are left as are to come, all are chosen, and where one
// or two are to come, other loops do.
#[cycle(choose_search)]
pub fn search(
    search: Search,
    most: usize,
    index: &[u16],
    hits: &mut [u8],
    set: &mut [u8],
    out: &mut [u8],
) -> usize
    requires searching { Searching search index.now hits.old set.old out.old }
    requires light { Light index.now most }
    ensures { Searched search index.now hits.old set.old out.old hits.new
        set.new out.new result }
{
    let more = search.k - search.chosen;
    if more == 1 {
        return last_node(search, index, hits, set, out);
    }
    if more == 2 {
        return last_two(search, index, hits, set, out);
    }
    let last = (search.n - more) as u8;
    let mut least = search.least;
    for v in search.next.0..last {
        let here = Search {
            next: Node(v),
            least,
            ..search
        };
        least = choose(here, most, index, hits, set, out);
    }
    let rest = Search {
        next: Node(last),
        least,
        ..search
    };
    if keeps(rest, most, index, hits) {
        return least;
    }
    choose_rest(rest, index, hits, set, out)
}
