// Writing the joined layers' rows.
ghost use Rattle.std.specs.Prelude.{◌≡◌, ◌+◌, ◌*◌, ◌≤◌, ◌<◌, map, length};
ghost use Rattle.lists.specs.Lists.{All, over_start};
ghost use Rattle.join.specs.Estate.{copied_bytes, part_bytes, layer_bytes, layers_below, put_at, PartFits, LayerFits, LayersFit};

use join::{Estate, Layering};
use layers::LayerHead;

// Writes the bytes, each `before` more, to the start of `out`.
fn shift_bytes(out: &mut [u8], bytes: &[u8], before: u8)
    requires bytes_in_bounds { length bytes.now ≤ length out.old }
    requires all { All (λ v. before + v < 256) bytes.now }
    ensures { out.new ≡ over_start (map (λ v. before + v) bytes.now) out.old }
{
    for (place, byte) in bytes.iter().enumerate() {
        out[place] = before + *byte;
    }
}

// Writes that as often as `copies` says, one after another.
fn write_copies(out: &mut [u8], bytes: &[u8], before: u8, copies: usize)
    requires bytes_in_bounds { copies * length bytes.now ≤ length out.old }
    requires all { All (λ v. before + v < 256) bytes.now }
    ensures { out.new
        ≡ over_start (copied_bytes copies (map (λ v. before + v) bytes.now)) out.old }
{
    for done in 0..copies {
        let to = done * bytes.len();
        shift_bytes(&mut out[to..], bytes, before);
    }
}

// Writes a pack's part of a layer at place `at`: its blocks, with the nodes before it counted, as often as the joined mu asks.
// Returns the place after it.
fn write_part(
    out: &mut [u8],
    at: usize,
    blocks: &[u8],
    mu: usize,
    bound: usize,
    before: usize,
) -> usize
    requires part_fits { PartFits bound before blocks.now }
    requires blocks_in_bounds { at + length (part_bytes mu bound before blocks.now) ≤ length out.old }
    ensures { (result ≡ at + length (part_bytes mu bound before blocks.now))
        × (out.new ≡ put_at at (part_bytes mu bound before blocks.now) out.old) }
{
    let m = blocks.len();
    if m == 0 {
        return at;
    }
    let copies = mu / bound;
    write_copies(&mut out[at..], blocks, before as u8, copies);
    at + copies * m
}

// Writes one layer at place `at`: the first pack's part, then the second's, then the third's. Returns the place after it.
fn write_layer(
    out: &mut [u8],
    at: usize,
    first: &[u8],
    second: &[u8],
    third: &[u8],
    layer: Layering,
) -> usize
    requires layer_fits { LayerFits layer first.now second.now third.now }
    requires third_in_bounds { at + length (layer_bytes layer first.now second.now third.now) ≤ length out.old }
    ensures { (result ≡ at + length (layer_bytes layer first.now second.now third.now))
        × (out.new
        ≡ put_at at (layer_bytes layer first.now second.now third.now) out.old) }
{
    let mu = layer.mu;
    let a = layer.a;
    let b = layer.b;
    let c = layer.c;
    let before_second = layer.second;
    let before_third = layer.third;
    let after_first = write_part(out, at, first, mu, a, 0);
    let after_second = write_part(out, after_first, second, mu, b, before_second);
    write_part(out, after_second, third, mu, c, before_third)
}

// Writes the layers' rows to the start of `out`, layer by layer, with the mu's of these heads.
pub(crate) fn write_layers(
    out: &mut [u8],
    first: &[u8],
    second: &[u8],
    third: &[u8],
    estate: Estate,
    heads: [LayerHead; 5],
)
    requires { LayersFit estate heads first.now second.now third.now out.old }
    ensures { out.new
        ≡ over_start (layers_below estate heads first.now second.now third.now estate.r) out.old }
{
    let r = estate.r;
    let one = estate.a;
    let two = estate.b;
    let three = estate.c;
    let one_layers = one.layers;
    let two_layers = two.layers;
    let three_layers = three.layers;
    let before_second = one.nodes;
    let two_nodes = two.nodes;
    let before_third = before_second + two_nodes;
    let mut from_first = one.place;
    let mut from_second = two.place;
    let mut from_third = three.place;
    let mut at: usize = 0;
    for x in 0..r {
        let a = one_layers[x];
        let b = two_layers[x];
        let c = three_layers[x];
        let mu = heads[x].bound;
        let end_first = from_first + a.size * r;
        let end_second = from_second + b.size * r;
        let end_third = from_third + c.size * r;
        let layer = Layering {
            mu,
            a: a.bound,
            b: b.bound,
            c: c.bound,
            second: before_second,
            third: before_third,
        };
        at = write_layer(
            out,
            at,
            &first[from_first..end_first],
            &second[from_second..end_second],
            &third[from_third..end_third],
            layer,
        );
        from_first = end_first;
        from_second = end_second;
        from_third = end_third;
    }
}
