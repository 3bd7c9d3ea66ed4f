// Planning: from a pack and an order of b records to the placement that document 01 names.
#![tactic(auto)]

ghost use Rattle.std.specs.Prelude.{◌≡◌, length};
ghost use Rattle.refusal.specs.Checked.{accepted, refused};
ghost use Rattle.planner.specs.Planning.{Fits, named_placement, plan_pack, plan as plan_of};
ghost use Rattle.planner.specs.Answers.{plan_answer, PlanDone};
ghost use Rattle.planner.specs.Writing.{held_pack, PackHeld};

use layers::{Base, LayerHead};
use placement::Order;
use planner::PlanResult;
use refusal::Refusal;

// The answer that refuses.
fn refuse(e: Refusal) -> PlanResult
    ensures { result ≡ plan_answer (refused e) }
{
    PlanResult {
        answer: Err(e),
        counts: [0; 5],
    }
}

// Plans an order that passes the checks: chooses the counts, in the working slice, then writes the placement.
fn plan_order(
    blocks: &[u8],
    base: Base,
    layers: [LayerHead; 5],
    order: Order,
    work: &mut [u16],
    out: &mut [u8],
) -> PlanResult
    requires pack_held { PackHeld base layers blocks.now }
    requires fits { Fits (held_pack base layers blocks.now) order (length work.old) (length out.old) }
    ensures { PlanDone
        (accepted (named_placement (held_pack base layers blocks.now) order.s order.k order.b))
        work.old work.new out.old out.new result }
{
    let counts = split_code::choose_counts(layers, order, work);
    let answer = planner_writer::write_placement(out, blocks, base, layers, order, counts);
    PlanResult { answer, counts }
}

// Checks an order on a pack whose numbers are known, and plans it; `blocks` has the pack's blocks.
fn plan_pack(
    blocks: &[u8],
    base: Base,
    layers: [LayerHead; 5],
    order: Order,
    work: &mut [u16],
    out: &mut [u8],
) -> PlanResult
    requires { PackHeld base layers blocks.now }
    ensures { PlanDone
        (plan_pack (held_pack base layers blocks.now) order (length work.old) (length out.old))
        work.old work.new out.old out.new result }
{
    let r = base.r;
    let s = order.s;
    let b = order.b;
    let limits = planner_order::check_order(base, order);
    if let Err(e) = limits {
        return refuse(e);
    }
    let some = planner_order::check_blocks(layers, s);
    if let Err(e) = some {
        return refuse(e);
    }
    let entries = planner_order::check_work(order, work.len());
    if let Err(e) = entries {
        return refuse(e);
    }
    let bytes = planner_order::check_output(b, r, out.len());
    if let Err(e) = bytes {
        return refuse(e);
    }
    plan_order(blocks, base, layers, order, work, out)
}

// Plans b records on a pack so that a record fails with s of its replicas and k nodes fail: writes the placement that
// document 01 names to the start of `out`. The working slice's first s × (b+1) entries are free afterwards.
//
// Demand 3 is proved of these definitions in `planner`, proofs/Planned.antt: for an accepted pack, an order within limits with
// a block below s and slices of the lengths stated, it doesn't refuse (`plan-never-refuses`), the checker accepts what is
// written (`plan-accepted`), its figure holds whichever k nodes fail (`plan-survives`), and no other split has a higher one
// (`named-highest` in `split`).
pub fn plan(
    pack: &[u8],
    s: usize,
    k: usize,
    b: usize,
    work: &mut [u16],
    out: &mut [u8],
) -> PlanResult
    ensures { PlanDone
        (plan_of pack.now (record { s = s; k = k; b = b }) (length work.old) (length out.old))
        work.old work.new out.old out.new result }
{
    let checked = pack_code::check_pack(pack);
    let layers = checked.layers;
    let dark = checked.dark;
    let answer = checked.answer;
    match answer {
        Err(e) => refuse(e),
        Ok(head) => {
            let base = Base {
                n: head.n,
                r: head.r,
                dark,
            };
            let first = head.first;
            plan_pack(&pack[first..], base, layers, Order { s, k, b }, work, out)
        }
    }
}
