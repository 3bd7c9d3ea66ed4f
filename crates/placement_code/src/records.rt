// Checking a placement's rows and, in kind 6, the feeders after them.
ghost use Rattle.std.specs.Prelude.{◌≡◌, ◌<◌, take, IsOk};
ghost use Rattle.layers.specs.Answers.{site_of};
ghost use Rattle.crowding_code.specs.Load.{first_load};
ghost use Rattle.placement.specs.Placement.{check_records};
ghost use Rattle.placement.specs.Answers.{records_check};
ghost use Rattle.placement.specs.Asked.{RecordsAsked};
ghost use Rattle.placement_code.specs.Loaded.{unfed};

use crate::fed::check_fed;
use layers::{Base, LayerHead};
use placement::{FeederTable, Terms};
use refusal::Refusal;

// What checking the records gives, with the load of layer 0 beside good ones without feeders.
#[derive(Clone, Copy)]
pub(crate) struct LoadedRecords {
    pub records: Result<FeederTable, Refusal>,
    pub load: usize,
}

// The same verdict, with the table of a placement that has no feeders.
fn without_feeders(verdict: Result<(), Refusal>) -> Result<FeederTable, Refusal>
    ensures { result ≡ unfed verdict }
{
    verdict?;
    Ok(FeederTable {
        number: 0,
        each: [0; 255],
    })
}

// The rows of a placement of this kind, which start at `at`, and in kind 6 the feeders after them: good, or refusal 1 for the rows'
// length, 1, 2 or 4 for a number after them, 5, 6 over all rows, 15, 21, 7.
pub(crate) fn check_records(
    bytes: &[u8],
    at: usize,
    kind: usize,
    base: Base,
    terms: Terms,
    heads: [LayerHead; 5],
) -> LoadedRecords
    requires { RecordsAsked base terms heads bytes.now at }
    ensures records_value { result.records
        ≡ records_check (check_records kind (site_of base) terms.k (take terms.s heads) bytes.now at) }
    ensures load_value { IsOk result.records → (kind ≡ 6 → ⊥) → 0 < terms.s
        → result.load ≡ first_load base.r heads bytes.now at }
{
    if kind == 6 {
        let records = check_fed(bytes, at, base, terms, heads);
        return LoadedRecords { records, load: 0 };
    }
    let s = terms.s;
    let rows = layers_code::check_rows(bytes, at, base, s, heads);
    LoadedRecords {
        records: without_feeders(rows.verdict),
        load: rows.load,
    }
}
