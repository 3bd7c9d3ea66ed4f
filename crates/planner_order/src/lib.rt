// The checks before planning, one each for refusals 12, 9, 10 and 11.
#![tactic(auto)]

ghost use Rattle.std.specs.Prelude.{◌≡◌, ◌≤◌};
ghost use Rattle.refusal.specs.Checked.{verdict};
ghost use Rattle.planner.specs.Planning.{check_order, check_blocks, check_work, check_output};

use layers::{Base, LayerHead};
use placement::Order;
use refusal::Refusal;

// Whether s is 1..r, k is s..n-1 and b is 1..4,096, or refusal 12.
pub fn check_order(base: Base, order: Order) -> Result<(), Refusal>
    ensures { result ≡ verdict (check_order base.n base.r order) }
{
    let n = base.n;
    let r = base.r;
    let s = order.s;
    let k = order.k;
    let b = order.b;
    if s < 1 {
        return Err(Refusal::BadOrder(0));
    }
    if r < s {
        return Err(Refusal::BadOrder(0));
    }
    if k < s {
        return Err(Refusal::BadOrder(1));
    }
    if n <= k {
        return Err(Refusal::BadOrder(1));
    }
    if b < 1 {
        return Err(Refusal::BadOrder(2));
    }
    if 4096 < b {
        return Err(Refusal::BadOrder(2));
    }
    Ok(())
}

// Whether some layer below s has a block, or refusal 9.
pub fn check_blocks(layers: [LayerHead; 5], s: usize) -> Result<(), Refusal>
    requires { s ≤ 5 }
    ensures { result ≡ verdict (check_blocks layers s) }
{
    if layers[0..s].iter().any(|layer| 0 < layer.size) {
        return Ok(());
    }
    Err(Refusal::NoBlock)
}

// Whether a working slice of `work` entries is long enough, or refusal 10.
pub fn check_work(order: Order, work: usize) -> Result<(), Refusal>
    requires { (order.s ≤ 5) × (order.b ≤ 4_096) }
    ensures { result ≡ verdict (check_work order work) }
{
    let s = order.s;
    let b = order.b;
    let needed = s * (b + 1);
    if work < needed {
        return Err(Refusal::ShortWork(needed));
    }
    Ok(())
}

// Whether an output of `output` bytes is long enough, or refusal 11.
pub fn check_output(b: usize, r: usize, output: usize) -> Result<(), Refusal>
    requires { (b ≤ 4_096) × (r ≤ 5) }
    ensures { result ≡ verdict (check_output b r output) }
{
    let needed = 448 + b * r;
    if output < needed {
        return Err(Refusal::ShortOutput(needed));
    }
    Ok(())
}
