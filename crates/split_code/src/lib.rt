// The counts of the named split, chosen with a table of least losses in the working slice.
#![tactic(auto)]

ghost use Rattle.std.specs.Prelude.{suc, ◌*◌, ◌≤◌, length};
ghost use Rattle.split.specs.Table.{Limits};
ghost use Rattle.split.specs.Working.{Chosen};

use layers::LayerHead;
use placement::Order;

// The counts of the named split, in the layers' order, 0 from layer s on. The first s × (b+1) entries of `work` are free
// afterwards, the others are as they were.
pub fn choose_counts(layers: [LayerHead; 5], order: Order, work: &mut [u16]) -> [usize; 5]
    requires { Limits layers order × (order.s * suc order.b ≤ length work.old) }
    ensures { Chosen layers order work.old work.new result }
{
    let s = order.s;
    let b = order.b;
    split_table::fill(layers, order, work);
    let mut counts = [0usize; 5];
    let mut left = b;
    for x in (1..s).rev() {
        let c = split_count::layer_count(layers, order, work, x, left);
        counts[x] = c;
        left -= c;
    }
    counts[0] = left;
    counts
}
