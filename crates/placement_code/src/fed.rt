// The rows of kind 6, and the numbers after them.
ghost use Rattle.std.specs.Prelude.{◌≡◌, take, drop};
ghost use Rattle.refusal.specs.Checked.{verdict};
ghost use Rattle.layers.specs.Layers.{layers_at};
ghost use Rattle.layers.specs.Answers.{site_of};
ghost use Rattle.placement.specs.Placement.{check_records};
ghost use Rattle.placement.specs.Answers.{records_check};
ghost use Rattle.placement.specs.Asked.{RecordsAsked, FedAsked, table_feeders, fed_rows_checked};

use layers::{Base, LayerHead};
use placement::{FeederTable, Terms};
use refusal::Refusal;

// Refusals 6, 15, 21 and 7 over the rows that start at `at`.
fn check_rows(
    bytes: &[u8],
    at: usize,
    base: Base,
    table: FeederTable,
    layers: usize,
    heads: [LayerHead; 5],
) -> Result<(), Refusal>
    requires { FedAsked base layers heads table bytes.now at }
    ensures { result
        ≡ verdict (fed_rows_checked (site_of base) at (table_feeders table) (layers_at base.r (take layers heads) (drop at bytes.now))) }
{
    let r = base.r;
    let rows = crowding_code::count_rows(layers, heads);
    layers_code::check_ascending(bytes, at, base, rows, 0)?;
    layers_code::check_service(bytes, at, base, rows)?;
    feeders_packings::check_feeders(bytes, at, r, table, layers, heads)
}

// The rows of kind 6, which start at `at`, and the feeders after them.
pub(crate) fn check_fed(
    bytes: &[u8],
    at: usize,
    base: Base,
    terms: Terms,
    heads: [LayerHead; 5],
) -> Result<FeederTable, Refusal>
    requires { RecordsAsked base terms heads bytes.now at }
    ensures { result
        ≡ records_check (check_records 6 (site_of base) terms.k (take terms.s heads) bytes.now at) }
{
    let n = base.n;
    let r = base.r;
    let s = terms.s;
    let rows = crowding_code::count_rows(s, heads);
    let end = at + rows * r;
    if bytes.len() < end {
        return Err(Refusal::Ended(bytes.len()));
    }
    let read = feeders_code::read_feeders(bytes, end, n, r, terms.k)?;
    let next = read.next;
    if next < bytes.len() {
        return Err(Refusal::Trailing(next));
    }
    check_rows(bytes, at, base, read.table, s, heads)?;
    Ok(read.table)
}
