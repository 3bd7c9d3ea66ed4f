// Checking the rows of all layers, in steps: their length, their end, their order, the nodes out of service and the packing
// test.
#![tactic(auto)]

mod ascending;
mod service;

ghost use Rattle.std.specs.Prelude.{◌≡◌, ◌≤◌, ◌<◌, length, take, Ok, Err};
ghost use Rattle.refusal.specs.Checked.{verdict};
ghost use Rattle.layers.specs.Layers.{sizes, check_rows};
ghost use Rattle.layers.specs.Answers.{site_of, DarkFits};
ghost use Rattle.crowding_code.specs.Load.{first_load};

pub use ascending::check_ascending;
use layers::{Base, LayerHead};
use refusal::Refusal;
pub use service::check_service;

// What checking rows gives: the verdict, and the load of layer 0, which counts for something beside a good one alone.
#[derive(Clone, Copy)]
pub struct RowsCheck {
    pub verdict: Result<(), Refusal>,
    pub load: usize,
}

// The answer that refuses.
fn refuse(e: Refusal) -> RowsCheck
    ensures { result.verdict ≡ Err e }
{
    RowsCheck {
        verdict: Err(e),
        load: 0,
    }
}

// The rows of the layers, whose first row starts at `at`: good, or refusal 1 or 5 for their length, 6 over all
// of them, 15, 7. The load of layer 0, which is counted as its order is tested, is handed on.
pub fn check_rows(
    bytes: &[u8],
    at: usize,
    base: Base,
    layers: usize,
    heads: [LayerHead; 5],
) -> RowsCheck
    requires layers_le_r { (layers ≤ base.r) × (base.r ≤ 5) × (at ≤ length bytes.now) }
    requires heads_bound { sizes (take layers heads) ≤ 4096 }
    requires dark_fits { DarkFits base.dark }
    ensures verdict_value { result.verdict ≡ verdict (check_rows (site_of base) (take layers heads) bytes.now at) }
    ensures loaded { result.verdict ≡ Ok tt → 0 < layers → result.load ≡ first_load base.r heads bytes.now at }
{
    let r = base.r;
    let rows = crowding_code::count_rows(layers, heads);
    let end = at + rows * r;
    if bytes.len() < end {
        return refuse(Refusal::Ended(bytes.len()));
    }
    if end < bytes.len() {
        return refuse(Refusal::Trailing(end));
    }
    let c = crowding_code::first_size(layers, heads);
    let order = ascending::check_order(bytes, at, base, rows, c);
    let order_verdict = order.verdict;
    if let Err(e) = order_verdict {
        return refuse(e);
    }
    let service = check_service(bytes, at, base, rows);
    if let Err(e) = service {
        return refuse(e);
    }
    let load = order.load;
    // Where layer 0 has all rows its load alone settles the packing test, if it is low enough.
    if c == rows && load <= heads[0].bound {
        let verdict = Ok(());
        return RowsCheck { verdict, load };
    }
    let verdict = crowding_code::check_packings(bytes, at, r, layers, heads, load);
    RowsCheck { verdict, load }
}
