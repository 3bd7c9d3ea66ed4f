// Replaying an outage log, for C and Rust: the events stand in three plain slices, and nothing bounds their number.
#![tactic(auto)]

mod events;

ghost use Rattle.std.specs.Prelude.{◌≤◌, [], ◌∷◌, length};
ghost use Rattle.refusal.specs.Refusals.{result as result_of};
ghost use Rattle.replay.specs.Replays.{check_replay};
ghost use Rattle.replay.specs.Answers.{replay_answer, replay_outcome};
ghost use Rattle.exports.specs.Exports.{Put, Told};
ghost use Rattle.export_replay.specs.Events.{events_of, replay_stated};

use exports::BAD_LENGTH;
use replay::Replayed;

// Puts the lowest number and its event; answers 0.
fn lowest(number: usize, event: usize, answer: &mut [usize]) -> usize
    requires { 3 ≤ length answer.old }
    ensures { Put (result_of (number ∷ event ∷ [])) answer.old answer.new result }
{
    export_answers::put(answer, &[0, number, event]);
    0
}

// Puts what a replay answers.
fn tell_replayed(replayed: Replayed, answer: &mut [usize]) -> usize
    requires { 3 ≤ length answer.old }
    ensures { Put (replay_outcome replayed) answer.old answer.new result }
{
    match replayed {
        Replayed::Lowest(number, event) => lowest(number, event, answer),
        Replayed::Quiet(number) => export_answers::value(number, answer),
        Replayed::Refused(e) => export_answers::refused(e, answer),
    }
}

// Runs an outage log against a placement: what `replay_code::replay` gives for these events. The answer has up to 3 numbers: 0, the
// lowest number of usable records and the first event after which it stood; for an empty log 0 and b.
pub fn musseltwig_replay(
    placement: &[u8],
    times: &[u32],
    nodes: &[u8],
    downs: &[u8],
    answer: &mut [usize],
) -> usize
    ensures { Told (replay_stated times.now nodes.now downs.now answer.old)
        (replay_outcome (replay_answer
        (check_replay placement.now (events_of times.now nodes.now downs.now))))
        answer.old answer.new result }
{
    if answer.len() < 3 {
        return BAD_LENGTH;
    }
    if nodes.len() != times.len() {
        return BAD_LENGTH;
    }
    if downs.len() != times.len() {
        return BAD_LENGTH;
    }
    let replayed = crate::events::replay_events(placement, times, nodes, downs);
    tell_replayed(replayed, answer)
}
