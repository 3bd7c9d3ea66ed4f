// The row walk's step: the next row, and the walk past it.
ghost use Rattle.std.specs.Prelude.{◌≡◌};
ghost use Rattle.walk.specs.RowWalk.{step_walk, RowPart};

use walk::Cursor;

// A row walk keeps the caller's bytes and its place in them.
#[derive(Clone, Copy)]
pub struct Walk<'a> {
    pub bytes: &'a [u8],
    pub place: Cursor,
}

// What a step gives: a row of the walk's bytes, empty at the end, and the walk after it.
#[derive(Clone, Copy)]
pub struct Stepped<'a> {
    pub row: &'a [u8],
    pub walk: Walk<'a>,
}

// The next row as that part of the caller's bytes, with the walk moved past it; at the end an empty part, and the walk unmoved.
pub fn step<'a>(walk: Walk<'a>) -> Stepped<'a>
    ensures { RowPart walk.entry.bytes walk.entry.place result.row
        × (result.walk.bytes ≡ walk.entry.bytes)
        × (result.walk.place ≡ step_walk walk.entry.bytes.now walk.entry.place) }
{
    let bytes = walk.bytes;
    let place = walk.place;
    let row = walk_rows::row_at(bytes, place);
    let next = walk_rows::moved(bytes, place);
    Stepped {
        row,
        walk: Walk { bytes, place: next },
    }
}
