// Figures from rows of binomials.
ghost use Rattle.std.specs.Prelude.{◌≡◌, ◌+◌, ◌*◌, ◌/◌, ◌^◌, ◌≤◌, ◌<◌, min, length, take};
ghost use Rattle.std.proofs.lemmas.List.Edits.{sets};
ghost use Rattle.placement.specs.declared.Rule.TheVariants.{OneFloor};
ghost use Rattle.placement.specs.Figure.{figure_of};
ghost use Rattle.curve.specs.Binomials.{binomial_row};
ghost use Rattle.curve.specs.Asked.{LayersAsked, figures_from};

use crate::binomials::{next_row, row_of};
use layers::LayerHead;
use placement::{Order, Rule};

// The smaller of a layer's records and its floor. A layer without records loses nothing: there is no division.
fn loss_from(layer: LayerHead, above: usize, below: usize) -> usize
    requires { (layer.bound * above < 2 ^ 64) × (0 < below) }
    ensures { result ≡ min layer.size (layer.bound * above / below) }
{
    if layer.size == 0 {
        return 0;
    }
    layer.size.min(layer.bound * above / below)
}

// The figure by the one floor for k failures, with C(k,0) to C(k,5) in `above` and C(s,0) to C(s,5) in `below`.
fn figure_from(
    s: usize,
    b: usize,
    layers: [LayerHead; 5],
    k: usize,
    above: [usize; 6],
    below: [usize; 6],
) -> usize
    requires layers_asked { LayersAsked s b layers × (k ≤ 255) }
    requires above_value { (above ≡ binomial_row k) × (below ≡ binomial_row s) }
    ensures { result ≡ figure_of OneFloor s k b (take s layers) }
{
    let mut lost: usize = 0;
    for x in 0..s {
        lost += loss_from(layers[x], above[x + 1], below[x + 1]);
    }
    b - lost
}

// The figure by the rule; the nested floors need no binomials.
fn figure_at(
    rule: Rule,
    order: Order,
    layers: [LayerHead; 5],
    above: [usize; 6],
    below: [usize; 6],
) -> usize
    requires layers_asked { LayersAsked order.s order.b layers × (order.s ≤ order.k) × (order.k ≤ 255) }
    requires above_value { (above ≡ binomial_row order.k) × (below ≡ binomial_row order.s) }
    ensures { result ≡ figure_of rule order.s order.k order.b (take order.s layers) }
{
    if let Rule::NestedFloors = rule {
        return placement_figure::figure_of(rule, order, layers);
    }
    figure_from(order.s, order.b, layers, order.k, above, below)
}

// Writes the figures for s, s + 1, .. failures to the start of `out`.
pub fn write_figures(
    rule: Rule,
    s: usize,
    b: usize,
    layers: [LayerHead; 5],
    entries: usize,
    out: &mut [u16],
)
    requires { LayersAsked s b layers × (s + entries ≤ 255) × (entries ≤ length out.old) }
    ensures { out.new ≡ sets out.old 0 (figures_from rule s b layers entries) }
{
    let below = row_of(s);
    let mut above = below;
    for i in 0..entries {
        let k = s + i;
        out[i] = figure_at(rule, Order { s, k, b }, layers, above, below) as u16;
        let next = next_row(above, k);
        above = next;
    }
}
