// Certifying rows that somebody else placed.
#![tactic(auto)]

ghost use Rattle.std.specs.Prelude.{◌≡◌, ◌≤◌, ◌<◌, length};
ghost use Rattle.refusal.specs.Checked.{accepted, refused};
ghost use Rattle.packing.specs.Rows.{rows_at};
ghost use Rattle.planner.specs.Answers.{plan_answer};
ghost use Rattle.planner.specs.Planning.{output_needed};
ghost use Rattle.certify.specs.Asked.{held_bare, BareHeld};
ghost use Rattle.certify.specs.Certify.{most_together, placed_in, certify_bare, certify as certify_of, CertifyDone};

use certify::Choice;
use layers::{Base, LayerHead};
use placement::Order;
use planner::PlanResult;
use refusal::Refusal;

// The answer that refuses.
fn refuse(e: Refusal) -> PlanResult
    ensures { result ≡ plan_answer (refused e) }
{
    PlanResult {
        answer: Err(e),
        counts: [0; 5],
    }
}

// Writes the rows, all in the layer of the choice: as the planner writes one copy of blocks of which that layer has these, and no
// other layer has any.
fn write_in(rows: &[u8], base: Base, order: Order, choice: Choice, out: &mut [u8]) -> PlanResult
    requires bare_held { BareHeld base order rows.now }
    requires layer_lt_s { (choice.layer < order.s)
        × (choice.lambda ≡ most_together choice.layer (rows_at base.r order.b rows.now)) }
    requires r_in_bounds { output_needed order.b base.r ≤ length out.old }
    ensures { CertifyDone (accepted (placed_in (held_bare base order rows.now) choice.layer))
        out.old out.new result }
{
    let x = choice.layer;
    let b = order.b;
    let mut layers = [LayerHead { bound: 1, size: 0 }; 5];
    layers[x] = LayerHead {
        bound: choice.lambda,
        size: b,
    };
    let mut counts = [0usize; 5];
    counts[x] = b;
    let answer = planner_writer::write_placement(out, rows, base, layers, order, counts);
    PlanResult { answer, counts }
}

// Certifies rows that were accepted: 11, or the layer with the highest figure and the placement.
fn certify_bare(rows: &[u8], base: Base, order: Order, out: &mut [u8]) -> PlanResult
    requires { BareHeld base order rows.now }
    ensures { CertifyDone (certify_bare (held_bare base order rows.now) (length out.old))
        out.old out.new result }
{
    let r = base.r;
    let b = order.b;
    let bytes = planner_order::check_output(b, r, out.len());
    if let Err(e) = bytes {
        return refuse(e);
    }
    let choice = certify_most::choose_layer(rows, r, order);
    write_in(rows, base, order, choice, out)
}

// Certifies a file of bare rows: writes the placement of kind 5 with these rows, all in the layer with the highest figure, to the start
// of `out`. Answers as `planner_code::plan` does.
//
// What is written is accepted by the checker with these rows, and no placement that has them in one layer has a higher figure:
// `placed_in-accepted` and `none-higher` in `certify`.
pub fn certify(bytes: &[u8], out: &mut [u8]) -> PlanResult
    ensures { CertifyDone (certify_of bytes.now (length out.old))
        out.old out.new result }
{
    match certify_reader::read_bare(bytes) {
        Err(e) => refuse(e),
        Ok(read) => certify_bare(&bytes[read.first..], read.base, read.order, out),
    }
}
