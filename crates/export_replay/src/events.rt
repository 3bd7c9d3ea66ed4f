// A walk over events in plain slices, whose step is replay_step's.
ghost use Rattle.std.specs.Prelude.{◌≡◌, ◌<◌, length, get_or};
ghost use Rattle.replay.specs.Replays.{check_replay};
ghost use Rattle.replay.specs.Answers.{replay_answer};
ghost use Rattle.replay.specs.Board.{rest, Standing};
ghost use Rattle.export_replay.specs.Events.{event_of, events_of};

use packing::Node;
use replay::{Event, Progress, Replayed};

// Event i of the log.
fn event_at(times: &[u32], nodes: &[u8], downs: &[u8], i: usize) -> Event
    requires { (i < length times.now) × (i < length nodes.now) × (i < length downs.now) }
    ensures { result ≡ event_of (get_or times.now i 0) (get_or nodes.now i 0) (get_or downs.now i 0) }
{
    let node = Node(nodes[i]);
    let down = 0 < downs[i];
    Event {
        time: times[i],
        node,
        down,
    }
}

// Replays the events, one after the other.
fn run(start: Progress, times: &[u32], nodes: &[u8], downs: &[u8], board: &mut [u16]) -> Progress
    requires standing { Standing start board.old }
    requires nodes_len { (length nodes.now ≡ length times.now) × (length downs.now ≡ length times.now) }
    ensures { result.answer ≡ rest start board.old 0 (events_of times.now nodes.now downs.now) }
{
    let mut progress = start;
    for i in 0..times.len() {
        let event = event_at(times, nodes, downs, i);
        progress = replay_step::step(progress, i, event, board);
    }
    progress
}

// Checks a placement and runs the log against it.
pub(crate) fn replay_events(bytes: &[u8], times: &[u32], nodes: &[u8], downs: &[u8]) -> Replayed
    requires { (length nodes.now ≡ length times.now) × (length downs.now ≡ length times.now) }
    ensures { result ≡ replay_answer (check_replay bytes.now (events_of times.now nodes.now downs.now)) }
{
    let mut board = [0u16; 25_089];
    let start = replay_opening::begin(bytes, &mut board);
    let end = run(start, times, nodes, downs, &mut board);
    end.answer
}
