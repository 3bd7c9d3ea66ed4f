// A node goes down or comes up: its mark, its records' replicas, and how many records are usable then.
#![tactic(auto)]

ghost use Rattle.std.specs.Prelude.{◌≡◌, true, false, ◌<◌, length};
ghost use Rattle.replay.specs.Board.{Counting, down_of, Moved};

use packing::Node;
use replay::Progress;
use replay_hits::{raise, restore};
use worst_hits::entries_of;

// A node that is up goes down.
fn go_down(progress: Progress, node: Node, board: &mut [u16]) -> usize
    requires board_len { (length board.old ≡ 25_089) × (node.0 < 255) }
    requires counting { Counting progress board.old }
    requires node_value { down_of board.old node.0 ≡ false }
    ensures { Moved progress board.old node.0 true board.new result }
{
    let s = progress.s;
    let b = progress.b;
    let usable = progress.usable;
    let v = node.0 as usize;
    board[20_737 + v] = 1;
    let entries = entries_of(board, node);
    raise(s, b, usable, entries, board)
}

// A node that is down comes up.
fn come_up(progress: Progress, node: Node, board: &mut [u16]) -> usize
    requires board_len { (length board.old ≡ 25_089) × (node.0 < 255) }
    requires counting { Counting progress board.old }
    requires node_value { down_of board.old node.0 ≡ true }
    ensures { Moved progress board.old node.0 false board.new result }
{
    let s = progress.s;
    let b = progress.b;
    let usable = progress.usable;
    let v = node.0 as usize;
    board[20_737 + v] = 0;
    let entries = entries_of(board, node);
    restore(s, b, usable, entries, board)
}

// A node changes its state.
pub fn change(progress: Progress, node: Node, down: bool, board: &mut [u16]) -> usize
    requires board_len { (length board.old ≡ 25_089) × (node.0 < 255) }
    requires counting { Counting progress board.old }
    requires node_value { (down ≡ true → down_of board.old node.0 ≡ false) × (down ≡ false → down_of board.old node.0 ≡ true) }
    ensures { Moved progress board.old node.0 down board.new result }
{
    if down {
        return go_down(progress, node, board);
    }
    come_up(progress, node, board)
}
