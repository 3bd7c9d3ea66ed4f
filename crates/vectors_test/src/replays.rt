// A log in bytes: six for each event, the time's four, lowest first, the node, and 1 where it goes down or 0 where it comes up.
ghost use Rattle.std.specs.Prelude.{◌+◌, ◌*◌, ◌≤◌, ◌<◌, length};

use crate::answers;
use crate::script::{Given, Part, part_of};
use packing::Node;
use replay::Event;

// The event in the six bytes from `at` on.
fn event_of(log: &[u8], at: usize) -> Event
    requires { at + 5 < length log.now }
{
    let time = u32::from_le_bytes([log[at], log[at + 1], log[at + 2], log[at + 3]]);
    let node = Node(log[at + 4]);
    let down = log[at + 5] > 0;
    Event { time, node, down }
}

// The log's events, `count` of them; those after them are not of the log.
fn events_of(log: &[u8], count: usize) -> [Event; 2_048]
    requires { (count * 6 ≤ length log.now) × (count ≤ 2_048) }
{
    let node = Node(0);
    let none = Event {
        time: 0,
        node,
        down: false,
    };
    let mut events = [none; 2_048];
    for (i, event) in events.iter_mut().enumerate().take(count) {
        *event = event_of(log, i * 6);
    }
    events
}

// The replay of the log that stands after the placement, which ends at the place given.
pub(crate) fn replayed(given: Given, input: &[u8]) -> [usize; 19] {
    let place = given.a;
    let end = input.len();
    let bytes = part_of(input, Part { from: 0, to: place });
    let log = part_of(
        input,
        Part {
            from: place,
            to: end,
        },
    );
    let count = log.len() / 6;
    if 2_048 < count {
        return answers::unknown();
    }
    answers::replayed(replay_array::replay_first(bytes, events_of(log, count), count))
}
