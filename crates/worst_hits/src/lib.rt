// Each record's replicas on failed nodes, as nodes are chosen and left.
#![tactic(auto)]

ghost use Rattle.std.specs.Prelude.{◌≡◌, ◌+◌, ◌≤◌, ◌<◌, eqb, length, get_or};
ghost use Rattle.lists.specs.Lists.{tally};
ghost use Rattle.worst.specs.Records.{entries_of, few, lowered_to, lost_to};
ghost use Rattle.worst.specs.Searches.{Lowering, Named, Raised, Raising};

use packing::{Node, Record};
use worst::Entries;

// The entries that name the records on a node.
pub fn entries_of(index: &[u16], node: Node) -> Entries
    requires in_bounds { 257 ≤ length index.now }
    requires node_bound { get_or index.now node.0 0 ≤ get_or index.now (node.0 + 1) 0 }
    ensures { result ≡ entries_of index.now node.0 }
{
    let v = usize::from(node.0);
    let from = usize::from(index[v]);
    let to = usize::from(index[v + 1]);
    let count = to - from;
    Entries { from, count }
}

// The record that an entry names.
fn record_at(index: &[u16], place: usize) -> Record
    requires { place < length index.now }
    ensures { result.0 ≡ get_or index.now place 0 }
{
    Record(usize::from(index[place]))
}

// 1 where a record with so many replicas on failed nodes has s of them there with one more, 0 else.
fn reaches(replicas: u8, s: usize) -> usize
    ensures { result ≡ tally (eqb (replicas + 1) s) 0 }
{
    usize::from(usize::from(replicas) + 1 == s)
}

// A node fails: raises the hits of its records. Of `usable` records those are left whose hits stay below s.
pub fn raise(s: usize, usable: usize, index: &[u16], entries: Entries, hits: &mut [u8]) -> usize
    requires raising { Raising index.now hits.old entries }
    requires usable_value { usable ≡ few s hits.old }
    ensures { Raised s index.now hits.old entries hits.new result }
{
    let from = entries.from;
    let count = entries.count;
    let mut left = usable;
    for raised in 0..count {
        let record = record_at(index, from + raised);
        let i = record.0;
        let replicas = hits[i];
        left -= reaches(replicas, s);
        hits[i] = replicas + 1;
    }
    left
}

// The node works again: lowers the hits of its records.
pub fn lower(index: &[u16], entries: Entries, hits: &mut [u8])
    requires { Lowering index.now hits.old entries }
    ensures { hits.new ≡ lowered_to index.now hits.old entries.from entries.count }
{
    let from = entries.from;
    let count = entries.count;
    for lowered in 0..count {
        let record = record_at(index, from + lowered);
        let i = record.0;
        hits[i] -= 1;
    }
}

// How many records would reach s if the node failed: the hits stay.
pub fn lose(s: usize, index: &[u16], entries: Entries, hits: &[u8]) -> usize
    requires { Named index.now hits.now entries }
    ensures { result ≡ lost_to s index.now hits.now entries.from entries.count }
{
    let from = entries.from;
    let count = entries.count;
    let mut lost: usize = 0;
    for seen in 0..count {
        let record = record_at(index, from + seen);
        let i = record.0;
        lost += reaches(hits[i], s);
    }
    lost
}
