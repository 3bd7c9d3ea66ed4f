// What the programs of document 02's calls print: definitions and laws. The code is in the crates reply_*.
#![tactic(auto)]

// The bytes that `curve` asks for: every reply is shorter.
pub const CURVE_NEEDED: usize = 10_668;

// The bytes that `worst` asks for.
pub const WORST_NEEDED: usize = 5_376;

// The bytes that `ask` asks for.
pub const ASK_NEEDED: usize = 256;

// The bytes that `page` asks for: the page of the most records.
pub const PAGE_NEEDED: usize = 110_619;
