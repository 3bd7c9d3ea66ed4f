// Writing the numbers of a placement's head.
ghost use Rattle.std.specs.Prelude.{◌≡◌, ◌≤◌, length, take};
ghost use Rattle.lists.specs.Lists.{All, over_start};
ghost use Rattle.number.specs.Numbers.{largest_number, forms_of};
ghost use Rattle.planner.specs.Writing.{own_numbers, written_numbers};

use layers::{Base, LayerHead};
use placement::Order;

// The numbers of a placement's head after the list of nodes, with room for five layers.
fn own_numbers(order: Order, figure: usize, heads: [LayerHead; 5]) -> [usize; 14]
    ensures { result ≡ own_numbers order figure heads }
{
    let [h0, h1, h2, h3, h4] = heads;
    [
        order.s, order.k, order.b, figure, h0.bound, h0.size, h1.bound, h1.size, h2.bound, h2.size,
        h3.bound, h3.size, h4.bound, h4.size,
    ]
}

// Writes them to the start of `out`, with the two numbers of each layer below s. Returns how many bytes they take.
fn write_own(out: &mut [u8], order: Order, figure: usize, heads: [LayerHead; 5]) -> usize
    requires s_bound { order.s ≤ 5 }
    requires all { All (λ v. v ≤ largest_number) (own_numbers order figure (take order.s heads)) }
    requires heads_in_bounds { length (forms_of (own_numbers order figure (take order.s heads))) ≤ length out.old }
    ensures { (result ≡ length (forms_of (own_numbers order figure (take order.s heads))))
        × (out.new ≡ over_start (forms_of (own_numbers order figure (take order.s heads))) out.old) }
{
    let s = order.s;
    let head = own_numbers(order, figure, heads);
    let numbers = 4 + 2 * s;
    number_writer::write_numbers(out, &head[0..numbers])
}

// Writes a placement's head to the start of `out`: kind 5, n, r and the nodes out of service, then its own numbers. Returns how
// many bytes it takes.
pub(crate) fn write_head(
    out: &mut [u8],
    base: Base,
    order: Order,
    figure: usize,
    heads: [LayerHead; 5],
) -> usize
    requires count_bound { base.dark.count ≤ 255 }
    requires s_bound { order.s ≤ 5 }
    requires all { All (λ v. v ≤ largest_number) (written_numbers base order figure (take order.s heads)) }
    requires heads_in_bounds { length (forms_of (written_numbers base order figure (take order.s heads))) ≤ length out.old }
    ensures { (result ≡ length (forms_of (written_numbers base order figure (take order.s heads))))
        × (out.new ≡ over_start (forms_of (written_numbers base order figure (take order.s heads))) out.old) }
{
    let at = layers_writer::write_base(out, 5, base);
    let more = write_own(&mut out[at..], order, figure, heads);
    at + more
}
