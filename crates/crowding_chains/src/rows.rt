// Linking the positions of every row: the first level.
ghost use Rattle.crowding.specs.Linking.{RowsToLink, RowsLinked};

use crowding::{Level, Span};

// Links the positions of each of the c rows that leave as many nodes as the level has to come.
pub fn link_rows(
    rows: &[u8],
    c: usize,
    level: Level,
    heads: &mut [u16],
    counts: &mut [u16],
    next: &mut [u16],
)
    requires { RowsToLink rows.now c level heads.old counts.old next.old }
    ensures { RowsLinked rows.now c level heads.new counts.new next.new }
{
    let r = level.r;
    let w = level.w;
    let mut most: usize = 0;
    for i in 0..c {
        let start = i * r;
        let end = start + r;
        let to = end - w;
        let span = Span { from: start, to };
        most = crate::linking::link(rows, span, heads, counts, next, most);
    }
}
