// The packing test of every layer, one after the other: refusal 7.
ghost use Rattle.std.specs.Prelude.{◌≡◌, ◌*◌, ◌≤◌, ◌<◌, T, length, take, drop};
ghost use Rattle.lists.specs.Lists.{All};
ghost use Rattle.refusal.specs.Checked.{verdict};
ghost use Rattle.packing.specs.Rows.{ascending, rows_at, first_crowded};
ghost use Rattle.packing.specs.Load.{most};
ghost use Rattle.packing.specs.Answers.{row_found};
ghost use Rattle.layers.specs.Layers.{layers_at, check_packings};
ghost use Rattle.layers.specs.Asked.{PackingsAsked};
ghost use Rattle.crowding_code.specs.Load.{first_load};

use crate::place::row_start;
use layers::LayerHead;
use packing::Record;
use refusal::Refusal;

// The first row of layer x that is crowded. The load of layer 0 settles it where no node stands in more than `bound` of its rows.
fn layer_crowded(
    rows: &[u8],
    c: usize,
    r: usize,
    x: usize,
    bound: usize,
    load: usize,
) -> Option<Record>
    requires limits { (c ≤ 4096) × (r ≤ 5) × (x < r) × (c * r ≤ length rows.now) }
    requires order { All (λ row. T (ascending 0 row)) (rows_at r c rows.now) }
    requires counted { x ≡ 0 → load ≡ most 256 (rows_at r c rows.now) }
    ensures { result ≡ row_found (first_crowded x bound (rows_at r c rows.now)) }
{
    if x == 0 && load <= bound {
        return None;
    }
    crate::first_crowded(rows, c, r, x, bound)
}

// Refusal 7 over the layers whose rows start at `at` and are in order: the packing test gets, layer by layer, the part of
// the bytes that begins at the layer's first row. `load` is that of layer 0.
pub fn check_packings(
    bytes: &[u8],
    at: usize,
    r: usize,
    layers: usize,
    heads: [LayerHead; 5],
    load: usize,
) -> Result<(), Refusal>
    requires packings_asked { PackingsAsked r layers heads bytes.now at }
    requires counted { 0 < layers → load ≡ first_load r heads bytes.now at }
    ensures { result
        ≡ verdict (check_packings r at (layers_at r (take layers heads) (drop at bytes.now))) }
{
    let mut start = at;
    for x in 0..layers {
        let head = heads[x];
        let c = head.size;
        let found = layer_crowded(&bytes[start..], c, r, x, head.bound, load);
        if let Some(row) = found {
            return Err(Refusal::Crowded(row_start(start, r, row)));
        }
        start += c * r;
    }
    Ok(())
}
