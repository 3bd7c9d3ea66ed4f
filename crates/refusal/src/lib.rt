// The refusals of document 01, one case for each row of its table, and of document 02's requests, with the place where it
// varies.
#![tactic(auto)]

#[derive(Clone, Copy)]
pub enum Refusal {
    // The input ends inside a number or before the last row's end: the input's length.
    Ended(usize),
    // Four groups all with the top bit set: the number's start.
    Malformed(usize),
    // The first number is not the file's kind.
    WrongKind,
    // A number outside its limits: its start, 0 on writing.
    OutsideLimits(usize),
    // Bytes after the last row: the first of them.
    Trailing(usize),
    // A row not ascending or with a node at or above n: its start.
    BadRow(usize),
    // x+1 nodes together in too many rows of layer x: the start of the first row that holds such a set.
    Crowded(usize),
    // The figure differs from the formula: its start.
    WrongFigure(usize),
    // No block in any layer below s.
    NoBlock,
    // The working slice is too short: the entries needed.
    ShortWork(usize),
    // The output is too short: the bytes needed.
    ShortOutput(usize),
    // s, k or b outside limits: 0, 1 or 2.
    BadOrder(usize),
    // Packs that can't be joined: r differs, or the joined nodes, rows or a mu pass the limits.
    Unjoinable,
    // An operator's wish, or the other's, that is 0 or above 4,096.
    BadWish,
    // A row that names a node out of service: its start.
    OutOfService(usize),
    // Counts that no split has.
    BadCounts,
    // Too many sets of k nodes, times the records, to go through.
    TooManySets,
    // A number of rounds, or a placement, outside the limits of the game.
    BadRounds,
    // An event earlier than the one before: its index.
    EarlierEvent(usize),
    // An event of no node, or one that changes nothing: its index.
    BadEvent(usize),
    // A row with two nodes on one feeder: its start.
    SharedFeeder(usize),
}
