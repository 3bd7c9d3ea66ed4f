// The row walk to its end and past it: every row is put into the output, one after the other.
use crate::answers;
use crate::compare::byte_at;
use refusal::Refusal;
use walk::Cursor;
use walk_code::Walk;

// What opening a walk gives: the answer, and where the walk stands.
#[derive(Clone, Copy)]
struct Opening {
    answer: Result<Cursor, Refusal>,
    place: Cursor,
}

// What a step gives: the row's bytes, 0 after them, how many there are, and where the walk stands after it.
#[derive(Clone, Copy)]
struct StepSeen {
    row: [u8; 5],
    length: usize,
    next: Cursor,
}

// How many rows were handed out, how many bytes they have together, and where the walk stands after them.
#[derive(Clone, Copy)]
struct WalkEnd {
    rows: usize,
    bytes: usize,
    place: Cursor,
}

// Opens a walk over the bytes.
fn open_from(bytes: &[u8]) -> Opening
    ensures { Unit }
{
    let opened = walk_code::open_walk(bytes);
    let answer = opened.answer;
    let place = opened.walk.place;
    Opening { answer, place }
}

fn seen(row: &[u8], next: Cursor) -> StepSeen {
    StepSeen {
        row: [
            byte_at(row, 0, 0),
            byte_at(row, 1, 0),
            byte_at(row, 2, 0),
            byte_at(row, 3, 0),
            byte_at(row, 4, 0),
        ],
        length: row.len(),
        next,
    }
}

// Steps the walk over the bytes that stands at `place`.
fn step_from(bytes: &[u8], place: Cursor) -> StepSeen
    ensures { Unit }
{
    let stepped = walk_code::step(Walk { bytes, place });
    let row = stepped.row;
    let next = stepped.walk.place;
    seen(row, next)
}

// Puts the row at `at` and answers the place after it; the slice's length where the row does not fit.
fn put(out: &mut [u8], at: usize, row: [u8; 5], length: usize) -> usize {
    if out.len() < at {
        return out.len();
    }
    if 5 < length {
        return out.len();
    }
    if out.len() - at < length {
        return out.len();
    }
    rows_writer::copy_bytes(&mut out[at..], &row[0..length]);
    at + length
}

// Walks from the first place to the end.
fn walk_rows(bytes: &[u8], first: Cursor, out: &mut [u8]) -> WalkEnd {
    let mut place = first;
    let mut to: usize = 0;
    for rows in 0..5_000 {
        let step = step_from(bytes, place);
        let row = step.row;
        let length = step.length;
        if length == 0 {
            return WalkEnd {
                rows,
                bytes: to,
                place,
            };
        }
        to = put(out, to, row, length);
        place = step.next;
    }
    WalkEnd {
        rows: 5_000,
        bytes: to,
        place,
    }
}

// The place where the walk stood first, the rows that it handed out and their bytes, its place after them, what two more steps
// hand out, its place after these, and the place in the answer.
fn places(bytes: &[u8], first: Cursor, end: WalkEnd, answered: Cursor) -> [usize; 19] {
    let last = end.place;
    let once = step_from(bytes, last);
    let twice = step_from(bytes, once.next);
    let again = twice.next;
    [
        0,
        first.at,
        first.r,
        first.left,
        end.rows,
        end.bytes,
        last.at,
        last.left,
        once.length,
        twice.length,
        again.at,
        again.left,
        answered.at,
        answered.left,
        0,
        0,
        0,
        0,
        0,
    ]
}

// Beside a refusal the walk is at its end.
pub(crate) fn walked(bytes: &[u8], out: &mut [u8]) -> [usize; 19] {
    let opening = open_from(bytes);
    let answer = opening.answer;
    let first = opening.place;
    let end = walk_rows(bytes, first, out);
    match answer {
        Ok(answered) => places(bytes, first, end, answered),
        Err(e) => { answers::numbers(refusal_code::number(e), refusal_code::place(e), end.rows) }
    }
}
