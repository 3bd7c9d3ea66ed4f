// Replaying a log that stands in an array: a function that other code can call, as only a walk can lend `&[Event]`.
#![tactic(auto)]

ghost use Rattle.std.specs.Prelude.{◌≡◌, ◌≤◌, take};
ghost use Rattle.replay.specs.Replays.{check_replay};
ghost use Rattle.replay.specs.Answers.{replay_answer};

use replay::{Event, Replayed};

// Runs the log of the array's first events, `count` of them, against a placement.
pub fn replay_first(bytes: &[u8], events: [Event; 2_048], count: usize) -> Replayed
    requires { count ≤ 2_048 }
    ensures { result ≡ replay_answer (check_replay bytes.now (take count events)) }
{
    replay_code::replay(bytes, &events[..count])
}
