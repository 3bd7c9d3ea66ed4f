// Writing the numbers of the joined pack's head.
ghost use Rattle.std.specs.Prelude.{◌≡◌, ◌≤◌, length, take};
ghost use Rattle.lists.specs.Lists.{All, over_start};
ghost use Rattle.number.specs.Numbers.{largest_number, forms_of};
ghost use Rattle.layers.specs.Layers.{head_numbers};
ghost use Rattle.join.specs.Estate.{joined_numbers};

use layers::{Base, LayerHead};

// The two numbers of each of five layers.
fn layer_numbers(heads: [LayerHead; 5]) -> [usize; 10]
    ensures { result ≡ head_numbers heads }
{
    let [h0, h1, h2, h3, h4] = heads;
    [
        h0.bound, h0.size, h1.bound, h1.size, h2.bound, h2.size, h3.bound, h3.size, h4.bound,
        h4.size,
    ]
}

// Writes the two numbers of each layer below r to the start of `out`. Returns how many bytes they take.
fn write_own(out: &mut [u8], r: usize, heads: [LayerHead; 5]) -> usize
    requires r_bound { r ≤ 5 }
    requires all { All (λ v. v ≤ largest_number) (head_numbers (take r heads)) }
    requires heads_in_bounds { length (forms_of (head_numbers (take r heads))) ≤ length out.old }
    ensures { (result ≡ length (forms_of (head_numbers (take r heads))))
        × (out.new ≡ over_start (forms_of (head_numbers (take r heads))) out.old) }
{
    let head = layer_numbers(heads);
    let numbers = 2 * r;
    number_writer::write_numbers(out, &head[0..numbers])
}

// Writes a pack's head to the start of `out`: kind 4, n, r and the nodes out of service, then the two numbers of each layer
// below r. Returns how many bytes it takes.
pub(crate) fn write_head(out: &mut [u8], base: Base, heads: [LayerHead; 5]) -> usize
    requires count_bound { base.dark.count ≤ 255 }
    requires r_bound { base.r ≤ 5 }
    requires all { All (λ v. v ≤ largest_number) (joined_numbers base heads) }
    requires heads_in_bounds { length (forms_of (joined_numbers base heads)) ≤ length out.old }
    ensures { (result ≡ length (forms_of (joined_numbers base heads)))
        × (out.new ≡ over_start (forms_of (joined_numbers base heads)) out.old) }
{
    let r = base.r;
    let at = layers_writer::write_base(out, 4, base);
    let more = write_own(&mut out[at..], r, heads);
    at + more
}
