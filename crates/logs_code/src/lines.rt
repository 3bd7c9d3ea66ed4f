// A line of a log.
ghost use Rattle.std.specs.Prelude.{◌≡◌, ◌+◌, ◌≤◌, length, drop};
ghost use Rattle.logs.specs.Lines.{blanks as blanks_of, solid as solid_of, word_of, number_of, state_of, node_of, with_time, event_of, last_word, two_words, three_words, content_line, line_of};

use crate::words::{blanks, number_of, solid, state_of};
use logs::{LogLine, State};
use packing::Node;
use replay::Event;

// A node's number as a byte; those from 255 on are 255.
fn node_of(v: u32) -> u8
    ensures { result ≡ node_of v }
{
    v.min(255) as u8
}

// An event with this time, node and state.
fn event_of(time: u32, v: u32, down: bool) -> LogLine
    ensures { result ≡ event_of time v down }
{
    let node = Node(node_of(v));
    LogLine::Happens(Event { time, node, down })
}

// The event that three words say, where they do.
fn event_said(time: Option<u32>, node: Option<u32>, state: State) -> LogLine
    ensures { result ≡ with_time time node state }
{
    let Some(seconds) = time else {
        return LogLine::Unreadable;
    };
    let Some(v) = node else {
        return LogLine::Unreadable;
    };
    match state {
        State::Down => event_of(seconds, v, true),
        State::Up => event_of(seconds, v, false),
        State::Other => LogLine::Unreadable,
    }
}

// The first word as a number.
fn first_number(bytes: &[u8]) -> Option<u32>
    ensures { result ≡ number_of (word_of bytes.now) }
{
    let end = solid(bytes);
    number_of(&bytes[0..end])
}

// The first word as a state.
fn first_state(bytes: &[u8]) -> State
    ensures { result ≡ state_of (word_of bytes.now) }
{
    let end = solid(bytes);
    state_of(&bytes[0..end])
}

// The place of the word after the first.
fn after_word(bytes: &[u8]) -> usize
    ensures { (result ≡ solid_of bytes.now + blanks_of (drop (solid_of bytes.now) bytes.now))
        × (result ≤ length bytes.now) }
{
    let end = solid(bytes);
    end + blanks(&bytes[end..])
}

// The last of three words, after the two before it.
fn last_word(time: Option<u32>, node: Option<u32>, third: &[u8]) -> LogLine
    ensures { result ≡ last_word time node third.now }
{
    let state = first_state(third);
    let next = after_word(third);
    if next < third.len() {
        return LogLine::Unreadable;
    }
    event_said(time, node, state)
}

// Two words, after the time.
fn two_words(time: Option<u32>, second: &[u8]) -> LogLine
    ensures { result ≡ two_words time second.now }
{
    let node = first_number(second);
    let next = after_word(second);
    last_word(time, node, &second[next..])
}

// Three words.
fn three_words(first: &[u8]) -> LogLine
    ensures { result ≡ three_words first.now }
{
    let time = first_number(first);
    let next = after_word(first);
    two_words(time, &first[next..])
}

// A line without its comment.
fn content_line(content: &[u8]) -> LogLine
    ensures { result ≡ content_line content.now }
{
    let start = blanks(content);
    if start == content.len() {
        return LogLine::Nothing;
    }
    three_words(&content[start..])
}

// A line of the text.
pub(crate) fn line_of(line: &[u8]) -> LogLine
    ensures { result ≡ line_of line.now }
{
    let end = table_lines::first_of(line, b'#');
    content_line(&line[0..end])
}
