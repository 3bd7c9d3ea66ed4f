// Sets of which two nodes are to come: no recursion is needed.
#![tactic(auto)]

ghost use Rattle.std.specs.Prelude.{◌≡◌, ◌+◌};
ghost use Rattle.worst.specs.Searches.{NextChosen, Searched, Searching};

use packing::Node;
use worst::Search;
use worst_hits::{entries_of, lower, raise};
use worst_last::last_node;

// Goes through the sets that have the next node and one more after it.
fn choose_two(
    search: Search,
    index: &[u16],
    hits: &mut [u8],
    set: &mut [u8],
    out: &mut [u8],
) -> usize
    requires searching { Searching search index.now hits.old set.old out.old }
    requires chosen_value { search.chosen + 2 ≡ search.k }
    ensures { NextChosen search index.now hits.old set.old out.old hits.new
        set.new out.new result }
{
    let s = search.s;
    let node = search.next;
    let place = search.chosen;
    let usable = search.usable;
    let entries = entries_of(index, node);
    let usable = raise(s, usable, index, entries, hits);
    set[place] = node.0;
    let next = Node(node.0 + 1);
    let others = Search {
        next,
        chosen: place + 1,
        usable,
        ..search
    };
    let least = last_node(others, index, hits, set, out);
    lower(index, entries, hits);
    least
}

// Goes through the sets that have those chosen and two nodes more, from the next one on.
pub fn last_two(
    search: Search,
    index: &[u16],
    hits: &mut [u8],
    set: &mut [u8],
    out: &mut [u8],
) -> usize
    requires searching { Searching search index.now hits.old set.old out.old }
    requires chosen_value { search.chosen + 2 ≡ search.k }
    ensures { Searched search index.now hits.old set.old out.old hits.new
        set.new out.new result }
{
    let n = search.n;
    let first = search.next.0;
    let mut least = search.least;
    for v in first..n as u8 - 1 {
        let here = Search {
            next: Node(v),
            least,
            ..search
        };
        least = choose_two(here, index, hits, set, out);
    }
    least
}
