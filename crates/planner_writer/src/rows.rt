// Writing the rows of a split's placement, layer by layer.
ghost use Rattle.std.specs.Prelude.{◌≡◌};
ghost use Rattle.lists.specs.Lists.{over_start};
ghost use Rattle.planner.specs.Writing.{held_layers, rows_below, RowsFit};

use layers::LayerHead;

// Writes the rows of the layers below s to the start of `out`, each layer's into the part that begins after the rows
// already laid down. `blocks` has the blocks of layer 0, then those of layer 1, and so on; `heads` has the counts.
pub(crate) fn write_layers(
    out: &mut [u8],
    blocks: &[u8],
    r: usize,
    s: usize,
    layers: [LayerHead; 5],
    heads: [LayerHead; 5],
)
    requires { RowsFit r s layers heads blocks.now out.old }
    ensures { out.new ≡ over_start (rows_below (held_layers r layers blocks.now) heads s) out.old }
{
    let mut to: usize = 0;
    let mut from: usize = 0;
    for x in 0..s {
        let m = layers[x].size;
        let count = heads[x].size;
        rows_code::write_rows(&mut out[to..], &blocks[from..], m, r, count);
        to += count * r;
        from += m * r;
    }
}
