// Where a walk stands when it was opened.
ghost use Rattle.std.specs.Prelude.{◌≡◌};
ghost use Rattle.walk.specs.RowWalk.{opened_place};

use refusal::Refusal;
use walk::Cursor;

// The place of the walk that was opened, or the end beside a refusal.
pub fn opened_place(answer: Result<Cursor, Refusal>) -> Cursor
    ensures { result ≡ opened_place answer }
{
    match answer {
        Ok(place) => place,
        Err(_) => Cursor {
            at: 0,
            r: 0,
            left: 0,
        },
    }
}
