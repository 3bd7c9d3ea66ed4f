// Where a search through sets needs no recursion: sets that have every node that is left.
#![tactic(auto)]

ghost use Rattle.std.specs.Prelude.{◌≡◌, ◌-◌, ◌≤◌, length, take};
ghost use Rattle.worst.specs.Records.{HitsOf, Index};
ghost use Rattle.worst.specs.Searches.{RestAsked, RestRaised, Searched, Searching};

use packing::Node;
use worst::Search;
use worst_hits::{entries_of, lower, raise};

// Chooses every node from the next one on; answers the records that are then usable.
fn raise_rest(search: Search, index: &[u16], hits: &mut [u8], set: &mut [u8]) -> usize
    requires { RestAsked search index.now hits.old set.old }
    ensures { RestRaised search index.now hits.old set.old hits.new set.new result }
{
    let first = search.next.0;
    let chosen = search.chosen;
    let mut usable = search.usable;
    for place in chosen..search.k {
        let v = first + (place - chosen) as u8;
        let entries = entries_of(index, Node(v));
        usable = raise(search.s, usable, index, entries, hits);
        set[place] = v;
    }
    usable
}

// Leaves the nodes of the set again, the last first, down to the first `chosen` of them.
fn lower_rest(index: &[u16], hits: &mut [u8], set: &[u8], chosen: usize, k: usize)
    requires index { Index index.now (length hits.old) }
    requires chosen_le_k { (chosen ≤ k) × (k ≤ length set.now) × HitsOf index.now (take k set.now) (length hits.old) hits.old }
    ensures { HitsOf index.now (take chosen set.now) (length hits.old) hits.new }
{
    for place in (chosen..k).rev() {
        let entries = entries_of(index, Node(set[place]));
        lower(index, entries, hits);
    }
}

// The one set that has those chosen and all that are left, where just as many are to come.
pub fn choose_rest(
    search: Search,
    index: &[u16],
    hits: &mut [u8],
    set: &mut [u8],
    out: &mut [u8],
) -> usize
    requires searching { Searching search index.now hits.old set.old out.old }
    requires next_value { search.n - search.next.0 ≡ search.k - search.chosen }
    ensures { Searched search index.now hits.old set.old out.old hits.new
        set.new out.new result }
{
    let k = search.k;
    let chosen = search.chosen;
    let least = search.least;
    let number = raise_rest(search, index, hits, set);
    lower_rest(index, hits, set, chosen, k);
    if least <= number {
        return least;
    }
    rows_code::copy_bytes(out, &set[0..k]);
    number
}
