// Linking positions of a row in chains, one for each node.
ghost use Rattle.crowding.specs.Linking.{SpanToLink, SpanLinked};

use crowding::Span;

// Puts each of the span's positions at the front of its node's chain; `most` is the largest count before, the result the
// largest after.
pub(crate) fn link(
    rows: &[u8],
    span: Span,
    heads: &mut [u16],
    counts: &mut [u16],
    next: &mut [u16],
    most: usize,
) -> usize
    requires { SpanToLink rows.now span heads.old counts.old next.old most }
    ensures { SpanLinked rows.now span heads.old counts.old next.old
        heads.new counts.new next.new result }
{
    let mut longest = most;
    for f in span.from..span.to {
        let v = usize::from(rows[f]);
        next[f] = heads[v];
        heads[v] = f as u16;
        let n = counts[v] + 1;
        counts[v] = n;
        longest = longest.max(usize::from(n));
    }
    longest
}
