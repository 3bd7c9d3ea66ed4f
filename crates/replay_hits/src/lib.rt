// Each record's replicas on nodes that are down, as nodes go down and come up.
#![tactic(auto)]

ghost use Rattle.std.specs.Prelude.{◌≡◌, ◌≤◌, eqb, length};
ghost use Rattle.lists.specs.Lists.{tally};
ghost use Rattle.worst.specs.Records.{few};
ghost use Rattle.replay.specs.Board.{hits_of, Raised, Raising, Restored, Restoring};

use worst::Entries;

// 1 where the two numbers are equal, 0 else.
fn equal(a: usize, b: usize) -> usize
    ensures { result ≡ tally (eqb a b) 0 }
{
    usize::from(a == b)
}

// A node goes down: its records have one replica more on nodes that are down. Of `usable` records those are left that have
// fewer than s.
pub fn raise(s: usize, b: usize, usable: usize, entries: Entries, board: &mut [u16]) -> usize
    requires board_len { (length board.old ≡ 25_089) × (b ≤ 4_096) }
    requires raising { Raising board.old b entries }
    requires usable_value { usable ≡ few s (hits_of board.old b) }
    ensures { Raised s b board.old entries board.new result }
{
    let from = entries.from;
    let count = entries.count;
    let mut left = usable;
    for seen in 0..count {
        let i = usize::from(board[from + seen]);
        let replicas = board[20_993 + i];
        left -= equal(usize::from(replicas) + 1, s);
        board[20_993 + i] = replicas + 1;
    }
    left
}

// A node comes up: its records have one replica less on nodes that are down. Those that had s are usable again.
pub fn restore(s: usize, b: usize, usable: usize, entries: Entries, board: &mut [u16]) -> usize
    requires board_len { (length board.old ≡ 25_089) × (b ≤ 4_096) }
    requires restoring { Restoring board.old b entries }
    requires usable_value { usable ≡ few s (hits_of board.old b) }
    ensures { Restored s b board.old entries board.new result }
{
    let from = entries.from;
    let count = entries.count;
    let mut left = usable;
    for seen in 0..count {
        let i = usize::from(board[from + seen]);
        let replicas = board[20_993 + i];
        left += equal(usize::from(replicas), s);
        board[20_993 + i] = replicas - 1;
    }
    left
}
