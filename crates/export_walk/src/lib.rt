// The row walk by a place, for C and Rust: a slice is a pointer and a length, the answer's numbers are put into the last one.
#![tactic(auto)]

ghost use Rattle.std.specs.Prelude.{◌≡◌, ◌≤◌, length, Ok};
ghost use Rattle.refusal.specs.Refusals.{result as result_of};
ghost use Rattle.walk.specs.RowWalk.{open_walk, walk_opened, walk_outcome, row_start};
ghost use Rattle.exports.specs.Exports.{Put, Told, fits};
ghost use Rattle.export_walk.specs.Steps.{step_values};

use exports::BAD_LENGTH;
use refusal::Refusal;
use walk::Cursor;

// Puts where a walk stands; answers 0.
fn opened_at(at: usize, r: usize, left: usize, answer: &mut [usize]) -> usize
    requires { 4 ≤ length answer.old }
    ensures { Put (walk_outcome (Ok (record { at = at; r = r; left = left }))) answer.old answer.new result }
{
    export_answers::put(answer, &[0, at, r, left]);
    0
}

// Puts what opening a walk answers.
fn tell_opened(opened: Result<Cursor, Refusal>, answer: &mut [usize]) -> usize
    requires { 4 ≤ length answer.old }
    ensures { Put (walk_outcome opened) answer.old answer.new result }
{
    match opened {
        Ok(place) => opened_at(place.at, place.r, place.left, answer),
        Err(e) => export_answers::refused(e, answer),
    }
}

// Opens a row walk: `walk_code::opened`. The answer has 4 numbers: 0, the first row's place, r and b, which a step takes.
pub fn musseltwig_open_walk(placement: &[u8], answer: &mut [usize]) -> usize
    ensures { Told (fits 4 answer.old) (walk_outcome (walk_opened (open_walk placement.now)))
        answer.old answer.new result }
{
    if answer.len() < 4 {
        return BAD_LENGTH;
    }
    let opened = walk_code::opened(placement);
    tell_opened(opened, answer)
}

// Where the next row begins, 0 at the end.
fn start_of(bytes: &[u8], place: Cursor) -> usize
    ensures { result ≡ row_start bytes.now place }
{
    if walk_rows::has_row(bytes, place) {
        place.at
    } else {
        0
    }
}

// A step of a row walk: `walk_rows::row_at` and `moved`. The answer has 6 numbers: 0, where the row begins in the placement and its
// length, 0 and 0 at the end, and the place, r and what is left for the next step.
pub fn musseltwig_step(
    placement: &[u8],
    at: usize,
    r: usize,
    left: usize,
    answer: &mut [usize],
) -> usize
    ensures { Told (fits 6 answer.old)
        (result_of (step_values placement.now (record { at = at; r = r; left = left })))
        answer.old answer.new result }
{
    if answer.len() < 6 {
        return BAD_LENGTH;
    }
    let place = Cursor { at, r, left };
    let start = start_of(placement, place);
    let next = walk_rows::moved(placement, place);
    let row = walk_rows::row_at(placement, place);
    export_answers::put(answer, &[0, start, row.len(), next.at, next.r, next.left]);
    0
}
