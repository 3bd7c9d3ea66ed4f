// A layer's losses in steps.
#![tactic(auto)]

ghost use Rattle.std.specs.Prelude.{◌≡◌, ◌≤◌, ◌<◌};
ghost use Rattle.packing.specs.Floors.{falling};
ghost use Rattle.split.specs.Table.{Limits, costs_of, copies_lose, steps_of};

use layers::LayerHead;
use placement::Order;
use placement_figure::floors_down;
use split::Steps;

// s × (s-1) × .. × (s-x).
fn falling_product(s: usize, x: usize) -> usize
    requires { (x < s) × (s ≤ 5) }
    ensures { result ≡ falling s x }
{
    let mut product = s;
    for i in 1..=x {
        product *= s - i;
    }
    product
}

// What 0, .., `period` copies of layer x lose, where mu is `bound`.
fn copy_costs(order: Order, x: usize, bound: usize, period: usize) -> [usize; 121]
    requires { (x < order.s) × (order.s ≤ 5) × (order.s ≤ order.k) × (order.k ≤ 255) × (bound ≤ 4096) × (period ≤ 120) }
    ensures { result ≡ costs_of (copies_lose order.s order.k x bound) period }
{
    let s = order.s;
    let k = order.k;
    let mut costs = [0usize; 121];
    for d in 0..=period {
        costs[d] = floors_down(k, s, x, d * bound);
    }
    costs
}

// The steps of layer x; in a layer without a block every one costs the mark.
pub fn steps(layers: [LayerHead; 5], order: Order, x: usize) -> Steps
    requires { Limits layers order × (x < order.s) }
    ensures { result ≡ steps_of layers order.s order.k x }
{
    let layer = layers[x];
    let size = layer.size;
    let bound = layer.bound;
    if size == 0 {
        let mut costs = [0usize; 121];
        costs[1] = 8192;
        return Steps {
            size: 4096,
            each: 8192,
            period: 1,
            costs,
        };
    }
    let s = order.s;
    let period = falling_product(s, x);
    let costs = copy_costs(order, x, bound, period);
    Steps {
        size,
        each: 1,
        period,
        costs,
    }
}
