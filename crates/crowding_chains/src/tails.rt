// Linking what comes after the positions of one chain: the level below it.
ghost use Rattle.crowding.specs.Linking.{TailsToLink, TailsLinked};

use crowding::{Chain, Level, Span};

// Links, for each position of a chain, those after it in its row that leave as many nodes as the level has to come; the
// result is the largest count.
pub fn link_tails(
    rows: &[u8],
    level: Level,
    chain: Chain,
    heads: &mut [u16],
    counts: &mut [u16],
    next: &mut [u16],
) -> usize
    requires { TailsToLink rows.now level chain heads.old counts.old next.old }
    ensures { TailsLinked rows.now level chain next.old heads.new counts.new
        next.new result }
{
    let r = level.r;
    let w = level.w;
    let mut p = usize::from(chain.head);
    let mut most: usize = 0;
    for _ in 0..chain.count {
        let after = next[p];
        let end = (p / r + 1) * r;
        let from = p + 1;
        let to = end - w;
        let span = Span { from, to };
        most = crate::linking::link(rows, span, heads, counts, next, most);
        p = usize::from(after);
    }
    most
}
