// The planner's table in the working slice: line x has the least losses of 0, .., b records in the layers below x.
#![tactic(auto)]

mod base;

ghost use Rattle.std.specs.Prelude.{suc, ◌*◌, ◌≤◌, ◌<◌, length};
ghost use Rattle.split.specs.Table.{Limits};
ghost use Rattle.split.specs.Working.{Filled};

use layers::LayerHead;
use placement::Order;

// Writes every line: line 0, then each from the one before it.
pub fn fill(layers: [LayerHead; 5], order: Order, work: &mut [u16])
    requires { Limits layers order × (order.s * suc order.b ≤ length work.old) }
    ensures { Filled layers order.s order.k (suc order.b) order.s work.old work.new }
{
    let s = order.s;
    let b = order.b;
    let w = b + 1;
    crate::base::base_line(work, w);
    for x in 1..s {
        let u = split_steps::steps(layers, order, x - 1);
        split_lines::raise_line(work, x * w, w, u);
    }
}
