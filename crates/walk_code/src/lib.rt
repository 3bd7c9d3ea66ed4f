// The row walk: a placement's rows, one after the other. A walk is opened here; its step is passed on.
#![tactic(auto)]

mod stepping;

ghost use Rattle.std.specs.Prelude.{◌≡◌};
ghost use Rattle.walk.specs.RowWalk.{open_walk, walk_opened, opened_place};

use refusal::Refusal;
pub use stepping::{Stepped, Walk, step};
use walk::Cursor;

// What opening a walk gives: the answer, and the walk, which is at its end beside a refusal.
#[derive(Clone, Copy)]
pub struct OpenedWalk<'a> {
    pub answer: Result<Cursor, Refusal>,
    pub walk: Walk<'a>,
}

// The place of the first row of the placement that `bytes` are, or the checker's refusal.
pub fn opened(bytes: &[u8]) -> Result<Cursor, Refusal>
    ensures { result ≡ walk_opened (open_walk bytes.now) }
{
    let checked = placement_code::check_placement(bytes);
    let head = checked.answer?;
    Ok(Cursor {
        at: head.first,
        r: head.r,
        left: head.b,
    })
}

// The walk over the placement that `bytes` are, at its first row; or the checker's refusal, and a walk at its end.
pub fn open_walk<'a>(bytes: &'a [u8]) -> OpenedWalk<'a>
    ensures { (result.answer ≡ walk_opened (open_walk bytes.now))
        × (result.walk.bytes ≡ bytes.entry)
        × (result.walk.place ≡ opened_place (walk_opened (open_walk bytes.now))) }
{
    let answer = opened(bytes);
    let place = walk_rows::opened_place(answer);
    OpenedWalk {
        answer,
        walk: Walk { bytes, place },
    }
}
