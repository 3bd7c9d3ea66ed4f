// Writing what a file with a list of nodes begins with: the kind, n, r and the nodes out of service.
#![tactic(auto)]

ghost use Rattle.std.specs.Prelude.{◌≡◌, ◌≤◌, length, take};
ghost use Rattle.lists.specs.Lists.{All, over_start};
ghost use Rattle.number.specs.Numbers.{largest_number, forms_of};
ghost use Rattle.layers.specs.Written.{start_numbers};

use layers::Base;

// Writes four numbers to the start of `out`. Returns how many bytes they take.
fn write_four(out: &mut [u8], numbers: [usize; 4]) -> usize
    requires all { All (λ v. v ≤ largest_number) numbers }
    requires numbers_in_bounds { length (forms_of numbers) ≤ length out.old }
    ensures { (result ≡ length (forms_of numbers))
        × (out.new ≡ over_start (forms_of numbers) out.old) }
{
    number_writer::write_numbers(out, &numbers[0..4])
}

// Writes the first `count` of the nodes to the start of `out`. Returns how many bytes they take.
fn write_nodes(out: &mut [u8], count: usize, nodes: [usize; 255]) -> usize
    requires count_bound { count ≤ 255 }
    requires all { All (λ v. v ≤ largest_number) (take count nodes) }
    requires nodes_in_bounds { length (forms_of (take count nodes)) ≤ length out.old }
    ensures { (result ≡ length (forms_of (take count nodes)))
        × (out.new ≡ over_start (forms_of (take count nodes)) out.old) }
{
    number_writer::write_numbers(out, &nodes[0..count])
}

// Writes the kind, n, r, how many nodes are out of service and their numbers to the start of `out`. Returns how many bytes they
// take.
pub fn write_base(out: &mut [u8], kind: usize, base: Base) -> usize
    requires count_bound { base.dark.count ≤ 255 }
    requires all { All (λ v. v ≤ largest_number) (start_numbers kind base) }
    requires base_in_bounds { length (forms_of (start_numbers kind base)) ≤ length out.old }
    ensures { (result ≡ length (forms_of (start_numbers kind base)))
        × (out.new ≡ over_start (forms_of (start_numbers kind base)) out.old) }
{
    let n = base.n;
    let r = base.r;
    let dark = base.dark;
    let count = dark.count;
    let nodes = dark.nodes;
    let at = write_four(out, [kind, n, r, count]);
    let more = write_nodes(&mut out[at..], count, nodes);
    at + more
}
