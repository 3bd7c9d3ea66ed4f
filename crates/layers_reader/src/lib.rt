// Reading the two numbers of each layer.
#![tactic(auto)]

ghost use Rattle.std.specs.Prelude.{◌≡◌, ◌≤◌};
ghost use Rattle.layers.specs.Layers.{least_size, read_layers};
ghost use Rattle.layers.specs.Answers.{layers_read};

use layers::{LayerHead, LayerLimits, LayersRead};
use refusal::Refusal;

// The least size of a layer with `after` layers after it and `room` left.
fn least_size(full: bool, after: usize, room: usize) -> usize
    ensures { result ≡ least_size full after room }
{
    if full && after == 0 { room } else { 0 }
}

// The two numbers of each of up to five layers from `at` on, within their limits, the sizes summing to at most `room` and,
// where the limits say so, to `room`.
pub fn read_layers(
    bytes: &[u8],
    at: usize,
    layers: usize,
    room: usize,
    limits: LayerLimits,
) -> Result<LayersRead, Refusal>
    requires { layers ≤ 5 }
    ensures { result ≡ layers_read (read_layers limits layers room bytes.now at) }
{
    let LayerLimits { lo, hi, full } = limits;
    let mut heads = [LayerHead { bound: 0, size: 0 }; 5];
    let mut next = at;
    let mut rest = room;
    for x in 0..layers {
        let bound = number_code::read_within(bytes, next, lo, hi)?;
        let least = least_size(full, layers - x - 1, rest);
        let size = number_code::read_within(bytes, bound.next, least, rest)?;
        heads[x] = LayerHead {
            bound: bound.value,
            size: size.value,
        };
        next = size.next;
        rest -= size.value;
    }
    Ok(LayersRead { heads, next })
}
