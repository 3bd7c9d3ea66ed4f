// The feeders of all rows: refusals 21 and 7.
#![tactic(auto)]

mod units;

ghost use Rattle.std.specs.Prelude.{◌≡◌, ◌+◌, ◌*◌, ◌≤◌, ◌<◌, length, take, drop};
ghost use Rattle.lists.specs.Lists.{All};
ghost use Rattle.refusal.specs.Checked.{verdict};
ghost use Rattle.layers.specs.Layers.{layers_at};
ghost use Rattle.placement.specs.Asked.{FeedersAsked, FeedersPut, table_feeders, feeders_checked};

use layers::LayerHead;
use placement::FeederTable;
use refusal::Refusal;
use units::check_units;

// Puts the rows of feeders of the rows that start at `at` to the same place of the buffer.
fn put_feeders(bytes: &[u8], at: usize, r: usize, rows: usize, each: &[u8], fed: &mut [u8])
    requires r_in_bounds { (at + rows * r ≤ length bytes.now) × (at + rows * r ≤ length fed.old) × (length each.now ≡ 255) }
    requires all { All (λ v. v < 255) (take (rows * r) (drop at bytes.now)) }
    ensures { FeedersPut bytes.now at r rows each.now fed.old fed.new }
{
    feeders_code::feeder_rows(&bytes[at..], each, r, rows, &mut fed[at..]);
}

// Refusals 21 and 7 over rows that are in order and start at `at`. The rows of feeders are put at the same place of a buffer, so
// that what is found there is found where the row stands in the file.
pub fn check_feeders(
    bytes: &[u8],
    at: usize,
    r: usize,
    table: FeederTable,
    layers: usize,
    heads: [LayerHead; 5],
) -> Result<(), Refusal>
    requires { FeedersAsked r layers heads table bytes.now at }
    ensures { result
        ≡ verdict (feeders_checked r at (table_feeders table) (layers_at r (take layers heads) (drop at bytes.now))) }
{
    let number = table.number;
    let each = table.each;
    let rows = crowding_code::count_rows(layers, heads);
    let mut fed = [0u8; 21572];
    put_feeders(bytes, at, r, rows, &each, &mut fed);
    check_units(&fed, at, r, number, layers, heads)
}
