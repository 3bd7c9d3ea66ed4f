// Replaying an outage log: a walk over the lent events, whose step is replay_step's.
#![tactic(auto)]

ghost use Rattle.std.specs.Prelude.{◌≡◌};
ghost use Rattle.replay.specs.Replays.{check_replay};
ghost use Rattle.replay.specs.Answers.{replay_answer};
ghost use Rattle.replay.specs.Board.{rest, Standing};

use replay::{Event, Progress, Replayed};

// Replays the events of a log, one after the other.
fn run(start: Progress, events: &[Event], board: &mut [u16]) -> Progress
    requires { Standing start board.old }
    ensures { result.answer ≡ rest start board.old 0 events.now }
{
    let mut progress = start;
    for (i, event) in events.iter().enumerate() {
        progress = replay_step::step(progress, i, *event, board);
    }
    progress
}

// Checks a placement and runs an outage log against it, all nodes being up at first: answers the lowest number of usable records
// and the first event after which it stood, or for an empty log b. Refuses as `check_placement` does; then with 19 an event earlier
// than the one before and with 20 a node not below n or a change to the state it is already in, the first bad event's index as place.
pub fn replay(bytes: &[u8], events: &[Event]) -> Replayed
    ensures { result ≡ replay_answer (check_replay bytes.now events.now) }
{
    let mut board = [0u16; 25_089];
    let start = replay_opening::begin(bytes, &mut board);
    let end = run(start, events, &mut board);
    end.answer
}
