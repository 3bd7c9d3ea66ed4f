// Rows of feeders: refusals 21 and 7.
ghost use Rattle.std.specs.Prelude.{◌≡◌, ◌+◌, ◌*◌, ◌≤◌, length, take, drop};
ghost use Rattle.refusal.specs.Checked.{verdict};
ghost use Rattle.layers.specs.Layers.{sizes, layers_at};
ghost use Rattle.placement.specs.Asked.{RowsAsked, units_checked};

use layers::LayerHead;
use refusal::Refusal;

// Refusals 21 and 7 over the rows of feeders that start at `at`: one with a feeder twice does not ascend.
pub(crate) fn check_units(
    fed: &[u8],
    at: usize,
    r: usize,
    number: usize,
    layers: usize,
    heads: [LayerHead; 5],
) -> Result<(), Refusal>
    requires rows_asked { RowsAsked r layers heads at }
    requires r_in_bounds { at + sizes (take layers heads) * r ≤ length fed.now }
    ensures { result
        ≡ verdict (units_checked number r at (layers_at r (take layers heads) (drop at fed.now))) }
{
    let rows = crowding_code::count_rows(layers, heads);
    let shared = rows_code::first_bad(&fed[at..], rows, r, number, 0);
    if let Some(row) = shared {
        return Err(Refusal::SharedFeeder(crowding_code::row_start(at, r, row)));
    }
    let load = crowding_code::first_load(fed, at, r, layers, heads);
    crowding_code::check_packings(fed, at, r, layers, heads, load)
}
