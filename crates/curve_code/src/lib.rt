// The curve of a placement: its figure for every number of failures.
#![tactic(auto)]

ghost use Rattle.std.specs.Prelude.{◌≡◌, length};
ghost use Rattle.refusal.specs.Checked.{WritingDone};
ghost use Rattle.placement.specs.Answers.{units_by};
ghost use Rattle.curve.specs.Curve.{check_curve};
ghost use Rattle.curve.specs.Asked.{CurveAsked, curve_from};

use layers::LayerHead;
use placement::PlacementHead;
use refusal::Refusal;

// How many can fail in a placement of n nodes and so many feeders, 0 where it has none.
fn units_of(n: usize, feeders: usize) -> usize
    ensures { result ≡ units_by n feeders }
{
    if feeders == 0 {
        return n;
    }
    feeders
}

// The curve of an accepted placement in which so many units can fail, where the output has room for it.
fn write_accepted(
    head: PlacementHead,
    units: usize,
    layers: [LayerHead; 5],
    out: &mut [u16],
) -> Result<usize, Refusal>
    requires { CurveAsked head units layers }
    ensures { WritingDone (curve_from head units layers (length out.old)) out.old out.new result }
{
    let s = head.s;
    let b = head.b;
    let entries = units - s;
    if out.len() < entries {
        return Err(Refusal::ShortOutput(entries));
    }
    let rule = placement_figure::rule_of(head.kind);
    curve_figures::write_figures(rule, s, b, layers, entries, out);
    Ok(entries)
}

// Checks a placement and puts its figure for each number of failures from s to n-1, in kind 6 to g-1, at the start of `out`, lowest
// first; answers the entries written. Refuses as `check_placement` does, then 11 where `out` has fewer than n - s entries, in kind 6
// g - s.
//
// Each figure holds whichever nodes fail, in kind 6 whichever feeders, and none is higher than one for fewer failures: `c-curve` in `promises`.
pub fn curve(bytes: &[u8], out: &mut [u16]) -> Result<usize, Refusal>
    ensures { WritingDone (check_curve bytes.now (length out.old)) out.old out.new result }
{
    let check = placement_code::check_placement(bytes);
    let head = check.answer?;
    let units = units_of(head.n, check.feeders.number);
    write_accepted(head, units, check.layers, out)
}
