// The survivor figure.
#![tactic(auto)]

ghost use Rattle.std.specs.Prelude.{◌≡◌, ◌≤◌, ◌<◌, take};
ghost use Rattle.lists.specs.Lists.{All};
ghost use Rattle.packing.specs.Floors.{floors_down};
ghost use Rattle.layers.specs.Layers.{sizes};
ghost use Rattle.placement.specs.Figure.{rule_of, lost_by, loss, figure_of};

use layers::LayerHead;
use placement::{Order, Rule};

// The rule of loss of a placement of this kind.
pub fn rule_of(kind: usize) -> Rule
    ensures { result ≡ rule_of kind }
{
    if kind == 2 {
        return Rule::OneFloor;
    }
    Rule::NestedFloors
}

// The nested floors of layer x: from i = x down to 0 times k-i, and the floor after dividing by s-i. No product wraps, since
// lambda × 255^5 is below 2^64.
pub fn floors_down(k: usize, s: usize, x: usize, lambda: usize) -> usize
    requires { (x < s) × (s ≤ 5) × (s ≤ k) × (k ≤ 255) × (lambda ≤ 16_777_216) }
    ensures { result ≡ floors_down k s x lambda }
{
    let mut w = lambda;
    for i in (1..=x).rev() {
        w = w * (k - i) / (s - i);
    }
    w * k / s
}

// What k failures lose at most in layer x at this lambda, by the rule.
fn lost_by(rule: Rule, s: usize, k: usize, x: usize, lambda: usize) -> usize
    requires { (x < s) × (s ≤ 5) × (s ≤ k) × (k ≤ 255) × (lambda ≤ 16_777_216) }
    ensures { result ≡ lost_by rule s k x lambda }
{
    if let Rule::NestedFloors = rule {
        return floors_down(k, s, x, lambda);
    }
    let above = binomial_table::binomial(k, x + 1);
    let below = binomial_table::binomial(s, x + 1);
    lambda * above / below
}

// The loss of layer x by the rule. A layer without records loses nothing, whatever its floors: they are not computed.
#[tactic(auto, unfolding(placement::specs::Figure::loss))]
fn loss_of(rule: Rule, s: usize, k: usize, x: usize, layer: LayerHead) -> usize
    requires { (x < s) × (s ≤ 5) × (s ≤ k) × (k ≤ 255) × (layer.bound ≤ 16_777_216) }
    ensures { result ≡ loss rule s k x layer }
{
    if layer.size == 0 {
        return 0;
    }
    lost_by(rule, s, k, x, layer.bound).min(layer.size)
}

// The figure by the rule: b less the losses of the layers below s.
pub fn figure_of(rule: Rule, order: Order, layers: [LayerHead; 5]) -> usize
    requires s_bound { (order.s ≤ 5) × (order.s ≤ order.k) × (order.k ≤ 255) × (sizes (take order.s layers) ≤ order.b) }
    requires all { All (λ head. head.bound ≤ 16_777_216) (take order.s layers) }
    ensures { result ≡ figure_of rule order.s order.k order.b (take order.s layers) }
{
    let s = order.s;
    let k = order.k;
    let b = order.b;
    let mut lost: usize = 0;
    for x in 0..s {
        lost += loss_of(rule, s, k, x, layers[x]);
    }
    b - lost
}
