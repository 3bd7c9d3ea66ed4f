// A block table as text: what reading it and printing it mean. The code is in table_code.
#![tactic(auto)]

// A text of so many bytes is longer than `pack` holds.
pub const TEXT_MOST: usize = 131_072;

// The bytes that `pack` asks for: no pack needs more.
pub const PACK_MOST: usize = 21_760;

// The bytes that `table` asks for: every text is shorter.
pub const TABLE_MOST: usize = 90_112;

// Why a text is refused: the refusal's number, and its place, which is a line, from 1.
#[derive(Clone, Copy)]
pub struct Fault {
    pub number: usize,
    pub place: usize,
}

// The word that a line begins with; a line of a block has none.
#[derive(Clone, Copy)]
pub enum Word {
    Table,
    Out,
    Mu,
    Plain,
}

// How far a table is read: n and r, 0 before they are read; how many numbers of the pack's head, layers, blocks and bytes of blocks
// there are.
#[derive(Clone, Copy)]
pub struct Progress {
    pub n: usize,
    pub r: usize,
    pub count: usize,
    pub layers: usize,
    pub blocks: usize,
    pub place: usize,
}
