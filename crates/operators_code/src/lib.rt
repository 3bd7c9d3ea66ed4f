// Planning for one of two operators who share the records.
#![tactic(auto)]

ghost use Rattle.std.specs.Prelude.{◌≡◌, ◌≤◌, length};
ghost use Rattle.refusal.specs.Checked.{refused};
ghost use Rattle.refusal.specs.declared.Refusal.TheVariants.{BadWish};
ghost use Rattle.planner.specs.Answers.{plan_answer, PlanDone};
ghost use Rattle.operators.specs.Operators.{grant as grant_of, wish_taken, plan_operator};

use operators::SharedOrder;
use planner::PlanResult;
use refusal::Refusal;

// Whether a wish is 1 to 4,096.
fn is_taken(wish: usize) -> bool
    ensures { result ≡ wish_taken wish }
{
    if wish < 1 {
        return false;
    }
    wish <= 4096
}

// What an operator is granted who wants `wish` records while the other wants `other`.
#[tactic(auto, unfolding(operators::specs::Operators::grant))]
fn grant(wish: usize, other: usize) -> usize
    requires wish_bound { wish ≤ 4_096 }
    requires other_bound { other ≤ 4_096 }
    ensures { result ≡ grant_of wish other }
{
    let left = 4096 - other;
    wish.min(left.max(2048))
}

// The answer that refuses with 14.
fn refuse() -> PlanResult
    ensures { result ≡ plan_answer (refused BadWish) }
{
    PlanResult {
        answer: Err(Refusal::BadWish),
        counts: [0; 5],
    }
}

// Plans one operator's records on a pack, from block 0, as many as it is granted beside the other's wish: answer and slices are
// those of `planner_code::plan` with the grant as b. A wish that is 0 or above 4,096 is refusal 14, before the pack is looked at.
pub fn plan_operator(
    pack: &[u8],
    order: SharedOrder,
    work: &mut [u16],
    out: &mut [u8],
) -> PlanResult
    ensures { PlanDone
        (plan_operator pack.now order (length work.old) (length out.old))
        work.old work.new out.old out.new result }
{
    let s = order.s;
    let k = order.k;
    let wish = order.wish;
    let other = order.other;
    if !is_taken(wish) {
        return refuse();
    }
    if !is_taken(other) {
        return refuse();
    }
    let b = grant(wish, other);
    planner_code::plan(pack, s, k, b, work, out)
}
