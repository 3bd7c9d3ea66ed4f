// The row at a walk's place, and the place past it.
ghost use Rattle.std.specs.Prelude.{◌≡◌};
ghost use Rattle.walk.specs.RowWalk.{has_row, step_walk, RowPart};

use walk::Cursor;

// Whether a row is left, and its `r` bytes stand in `bytes`. A sum that would wrap is the end too.
pub fn has_row(bytes: &[u8], place: Cursor) -> bool
    ensures { result ≡ has_row bytes.now place }
{
    let at = place.at;
    let r = place.r;
    let left = place.left;
    if left == 0 {
        return false;
    }
    if bytes.len() < at {
        return false;
    }
    r <= bytes.len() - at
}

// The next row as that part of `bytes`, or an empty part at the end.
pub fn row_at(bytes: &[u8], place: Cursor) -> &[u8]
    ensures { RowPart bytes.entry place result }
{
    let at = place.at;
    let r = place.r;
    if has_row(bytes, place) {
        &bytes[at..at + r]
    } else {
        &bytes[0..0]
    }
}

// The place past the next row, or the same place at the end.
pub fn moved(bytes: &[u8], place: Cursor) -> Cursor
    ensures { result ≡ step_walk bytes.now place }
{
    if has_row(bytes, place) {
        Cursor {
            at: place.at + place.r,
            r: place.r,
            left: place.left - 1,
        }
    } else {
        place
    }
}
