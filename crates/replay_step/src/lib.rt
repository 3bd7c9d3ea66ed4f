// One event of a log: it is checked, then its node changes its state.
#![tactic(auto)]

ghost use Rattle.std.specs.Prelude.{◌≡◌, cond, not, length};
ghost use Rattle.refusal.specs.Checked.{verdict};
ghost use Rattle.replay.specs.Log.{check_event};
ghost use Rattle.replay.specs.Board.{down_of, lowered_to, running, Standing, Stepped};

use packing::Node;
use refusal::Refusal;
use replay::{Event, Progress, Replayed};
use replay_moves::change;

// Whether nothing is refused yet.
fn is_running(answer: Replayed) -> bool
    ensures { result ≡ running answer }
{
    !matches!(answer, Replayed::Refused(_))
}

// Whether a node is down.
fn is_down(board: &[u16], node: Node) -> bool
    requires { length board.now ≡ 25_089 }
    ensures { result ≡ down_of board.now node.0 }
{
    board[20_737 + usize::from(node.0)] > 0
}

// Whether a node that was down or not changes its state where it then is down or not.
fn differs(was: bool, down: bool) -> bool
    ensures { result ≡ cond down (not was) was }
{
    was != down
}

// Checks event i, the one before it being at `time`: refuses with 19 or 20.
fn check_event(n: usize, time: u32, i: usize, event: Event, board: &[u16]) -> Result<(), Refusal>
    requires { length board.now ≡ 25_089 }
    ensures { result ≡ verdict (check_event n i time (down_of board.now) event) }
{
    let node = event.node;
    let down = event.down;
    if event.time < time {
        return Err(Refusal::EarlierEvent(i));
    }
    if usize::from(node.0) >= n {
        return Err(Refusal::BadEvent(i));
    }
    if !differs(is_down(board, node), down) {
        return Err(Refusal::BadEvent(i));
    }
    Ok(())
}

// The answer of the log so far after event i, which leaves `usable` records. It is made anew where it stays: to hand it on whole would
// copy the unused bytes of the enum too, which waits for the event before.
fn lowered(answer: Replayed, usable: usize, i: usize) -> Replayed
    ensures { result ≡ lowered_to usable i answer }
{
    match answer {
        Replayed::Lowest(low, at) => {
            if usable < low {
                return Replayed::Lowest(usable, i);
            }
            Replayed::Lowest(low, at)
        }
        Replayed::Quiet(_) => Replayed::Lowest(usable, i),
        Replayed::Refused(e) => Replayed::Refused(e),
    }
}

// Replays event i. After a refusal the rest of the log is passed over.
pub fn step(progress: Progress, i: usize, event: Event, board: &mut [u16]) -> Progress
    requires { Standing progress board.old }
    ensures { Stepped progress board.old i event board.new result }
{
    let n = progress.n;
    let s = progress.s;
    let b = progress.b;
    let before = progress.time;
    let usable = progress.usable;
    let answer = progress.answer;
    if !is_running(answer) {
        return progress;
    }
    let checked = check_event(n, before, i, event, board);
    match checked {
        Err(e) => Progress {
            n,
            s,
            b,
            time: before,
            usable,
            answer: Replayed::Refused(e),
        },
        Ok(()) => {
            let time = event.time;
            let left = change(progress, event.node, event.down, board);
            let low = lowered(answer, left, i);
            Progress {
                n,
                s,
                b,
                time,
                usable: left,
                answer: low,
            }
        }
    }
}
