// Sets of which one node is to come: no recursion is needed, and only what the node loses is counted.
#![tactic(auto)]

ghost use Rattle.std.specs.Prelude.{◌≡◌, ◌+◌};
ghost use Rattle.worst.specs.Searches.{LastChosen, Searched, Searching};

use packing::Node;
use worst::Search;
use worst_hits::{entries_of, lose};

// Chooses the next node as the last one of a set. Where the set leaves fewer records usable than any before it, it is written to
// the start of `out`; answers the fewest so far. The hits stay: what the node loses is counted and not marked.
fn choose_last(search: Search, index: &[u16], hits: &[u8], set: &mut [u8], out: &mut [u8]) -> usize
    requires searching { Searching search index.now hits.now set.old out.old }
    requires chosen_value { search.chosen + 1 ≡ search.k }
    ensures { LastChosen search index.now hits.now set.old out.old set.new
        out.new result }
{
    let k = search.k;
    let s = search.s;
    let next = search.next;
    let chosen = search.chosen;
    let usable = search.usable;
    let least = search.least;
    set[chosen] = next.0;
    let entries = entries_of(index, next);
    // The node loses at most all its records: where that leaves enough, they are not looked at.
    let most = entries.count.min(usable);
    if least <= usable - most {
        return least;
    }
    let number = usable - lose(s, index, entries, hits);
    if least <= number {
        return least;
    }
    rows_code::copy_bytes(out, &set[0..k]);
    number
}

// Goes through the sets that have those chosen and one node more, from the next one on.
pub fn last_node(
    search: Search,
    index: &[u16],
    hits: &[u8],
    set: &mut [u8],
    out: &mut [u8],
) -> usize
    requires searching { Searching search index.now hits.now set.old out.old }
    requires chosen_value { search.chosen + 1 ≡ search.k }
    ensures { Searched search index.now hits.now set.old out.old hits.now
        set.new out.new result }
{
    let n = search.n;
    let mut least = search.least;
    for v in search.next.0..n as u8 {
        let here = Search {
            next: Node(v),
            least,
            ..search
        };
        least = choose_last(here, index, hits, set, out);
    }
    least
}
