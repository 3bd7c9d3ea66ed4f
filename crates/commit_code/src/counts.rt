// The check of the counts that a caller hands over.
ghost use Rattle.std.specs.Prelude.{◌≡◌, ◌<◌};
ghost use Rattle.refusal.specs.Checked.{verdict};
ghost use Rattle.commit.specs.Committing.{layer_takes, check_counts};

use layers::LayerHead;
use refusal::Refusal;

// Whether layer x may have c records: there are none, or it is below s and has blocks.
fn layer_takes(layers: [LayerHead; 5], s: usize, x: usize, c: usize) -> bool
    requires { x < 5 }
    ensures { result ≡ layer_takes layers s x c }
{
    if c == 0 {
        return true;
    }
    if s <= x {
        return false;
    }
    0 < layers[x].size
}

// Whether the counts sum to b and put records only in layers below s that have blocks, or refusal 16. Counts are taken off
// what is left of b: a sum of numbers that a caller hands over could wrap.
pub(crate) fn check_counts(
    layers: [LayerHead; 5],
    s: usize,
    b: usize,
    counts: [usize; 5],
) -> Result<(), Refusal>
    ensures { result ≡ verdict (check_counts layers s b counts) }
{
    let mut left = b;
    for x in 0..5 {
        let c = counts[x];
        if left < c {
            return Err(Refusal::BadCounts);
        }
        if !layer_takes(layers, s, x, c) {
            return Err(Refusal::BadCounts);
        }
        left -= c;
    }
    if 0 < left {
        return Err(Refusal::BadCounts);
    }
    Ok(())
}
