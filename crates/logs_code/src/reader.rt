// Reading a log, line after line.
ghost use Rattle.std.specs.Prelude.{◌≡◌, Err};
ghost use Rattle.logs.specs.Reading.{LogIn, read_log};

use crate::lines::line_of;
use logs::{Log, LogLine, TEXT_MOST};
use packing::Node;
use replay::Event;
use text::TextRefusal;

// What stands where there is no event.
fn no_event() -> Event {
    let node = Node(0);
    Event {
        time: 0,
        node,
        down: false,
    }
}

// A text that is refused.
fn refused(e: TextRefusal) -> Log
    ensures { result.end ≡ Err e }
{
    let none = no_event();
    let events = [none; 2_048];
    let end = Err(e);
    Log {
        end,
        count: 0,
        events,
    }
}

// The events of a text, at most 2,048 of them, or why it is refused: it is longer than that, or a line can't be read.
pub fn read_log(text: &[u8]) -> Log
    ensures { LogIn (read_log text.now) result }
{
    if TEXT_MOST <= text.len() {
        return refused(TextRefusal::TooLong(TEXT_MOST));
    }
    let none = no_event();
    let mut events = [none; 2_048];
    let mut count: usize = 0;
    for (i, bytes) in text.split(|b| *b == b'\n').enumerate() {
        match line_of(bytes) {
            LogLine::Unreadable => return refused(TextRefusal::Unreadable(i + 1)),
            LogLine::Nothing => continue,
            LogLine::Happens(event) => {
                if 2_048 <= count {
                    return refused(TextRefusal::TooLong(2_048));
                }
                events[count] = event;
                count += 1;
            }
        }
    }
    let end = Ok(());
    Log { end, count, events }
}
