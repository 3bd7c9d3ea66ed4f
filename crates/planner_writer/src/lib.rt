// Writing a split's placement: the head, then each layer's rows.
#![tactic(auto)]

mod head;
mod rows;
mod shares;

ghost use Rattle.std.specs.Prelude.{◌≡◌, ◌≤◌, length};
ghost use Rattle.refusal.specs.Checked.{accepted};
ghost use Rattle.planner.specs.Planning.{output_needed, output_after};
ghost use Rattle.planner.specs.Answers.{plan_answer};
ghost use Rattle.planner.specs.Writing.{held_pack, counts_placement, Writable};

use layers::{Base, LayerHead};
use placement::{Order, Rule};
use planner::PlannedFile;
use refusal::Refusal;
pub use shares::{copies_for, split_heads};

// Writes the placement of the split with these counts and the least copies, a file of kind 5, to the start of `out`.
// `blocks` has the pack's blocks. Returns its length and figure.
pub fn write_placement(
    out: &mut [u8],
    blocks: &[u8],
    base: Base,
    layers: [LayerHead; 5],
    order: Order,
    counts: [usize; 5],
) -> Result<PlannedFile, Refusal>
    requires writable { Writable base layers blocks.now order counts }
    requires r_in_bounds { output_needed order.b base.r ≤ length out.old }
    ensures { (result
        ≡ (plan_answer (accepted (counts_placement (held_pack base layers blocks.now) order counts))).answer)
        × (out.new
        ≡ output_after (accepted (counts_placement (held_pack base layers blocks.now) order counts)) out.old) }
{
    let r = base.r;
    let s = order.s;
    let b = order.b;
    let heads = crate::shares::split_heads(layers, counts, s);
    let figure = placement_figure::figure_of(Rule::NestedFloors, order, heads);
    let at = crate::head::write_head(out, base, order, figure, heads);
    crate::rows::write_layers(&mut out[at..], blocks, r, s, layers, heads);
    Ok(PlannedFile {
        length: at + b * r,
        figure,
    })
}
