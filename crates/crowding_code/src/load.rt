// The load of layer 0. It settles the layer's packing test where it is low, and a caller can use it again.
ghost use Rattle.std.specs.Prelude.{◌≡◌, ◌<◌};
ghost use Rattle.layers.specs.Asked.{PackingsAsked};
ghost use Rattle.crowding_code.specs.Load.{first_load};

use layers::LayerHead;

// The largest number of rows of layer 0 that hold one node, where there is a layer.
pub fn first_load(bytes: &[u8], at: usize, r: usize, layers: usize, heads: [LayerHead; 5]) -> usize
    requires { PackingsAsked r layers heads bytes.now at }
    ensures { 0 < layers → result ≡ first_load r heads bytes.now at }
{
    let c = crate::first_size(layers, heads);
    rows_load::most_load(&bytes[at..], c, r, 256)
}
