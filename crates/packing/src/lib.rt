// Nodes, records and rows.
#![tactic(auto)]

// A node's number. Document 01, "Terms": a node number is never taken where a record number is due, nor the reverse.
#[derive(Clone, Copy)]
pub struct Node(pub u8);

// A record's number, counted in the order of the rows.
#[derive(Clone, Copy)]
pub struct Record(pub usize);
