// Committing: writing the placement of the split with the counts that a caller hands over.
#![tactic(auto)]

mod counts;

ghost use Rattle.std.specs.Prelude.{◌≡◌, length};
ghost use Rattle.refusal.specs.Checked.{refused};
ghost use Rattle.planner.specs.Answers.{plan_answer};
ghost use Rattle.planner.specs.Writing.{held_pack, PackHeld};
ghost use Rattle.commit.specs.Committing.{commit_pack, commit as commit_of, CommitDone};

use layers::{Base, LayerHead};
use placement::Order;
use planner::PlanResult;
use refusal::Refusal;

// The answer that refuses.
fn refuse(e: Refusal) -> PlanResult
    ensures { result ≡ plan_answer (refused e) }
{
    PlanResult {
        answer: Err(e),
        counts: [0; 5],
    }
}

// Checks an order and its counts on a pack whose numbers are known, and writes the split's placement; `blocks` has the pack's
// blocks.
fn commit_pack(
    blocks: &[u8],
    base: Base,
    layers: [LayerHead; 5],
    order: Order,
    counts: [usize; 5],
    out: &mut [u8],
) -> PlanResult
    requires { PackHeld base layers blocks.now }
    ensures { CommitDone
        (commit_pack (held_pack base layers blocks.now) order counts (length out.old))
        out.old out.new result }
{
    let r = base.r;
    let s = order.s;
    let b = order.b;
    let limits = planner_order::check_order(base, order);
    if let Err(e) = limits {
        return refuse(e);
    }
    let some = planner_order::check_blocks(layers, s);
    if let Err(e) = some {
        return refuse(e);
    }
    let split = crate::counts::check_counts(layers, s, b, counts);
    if let Err(e) = split {
        return refuse(e);
    }
    let bytes = planner_order::check_output(b, r, out.len());
    if let Err(e) = bytes {
        return refuse(e);
    }
    let answer = planner_writer::write_placement(out, blocks, base, layers, order, counts);
    PlanResult { answer, counts }
}

// Writes the placement of the split of b records with these counts and the least copies to the start of `out`. Answers as
// `planner_code::plan` does.
pub fn commit(
    pack: &[u8],
    s: usize,
    k: usize,
    b: usize,
    counts: [usize; 5],
    out: &mut [u8],
) -> PlanResult
    ensures { CommitDone
        (commit_of pack.now (record { s = s; k = k; b = b }) counts (length out.old))
        out.old out.new result }
{
    let checked = pack_code::check_pack(pack);
    let layers = checked.layers;
    let dark = checked.dark;
    let answer = checked.answer;
    match answer {
        Err(e) => refuse(e),
        Ok(head) => {
            let base = Base {
                n: head.n,
                r: head.r,
                dark,
            };
            let first = head.first;
            commit_pack(&pack[first..], base, layers, Order { s, k, b }, counts, out)
        }
    }
}
