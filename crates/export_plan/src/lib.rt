// Planning, for C and Rust: a slice is a pointer and a length, the answer's numbers are put into the last one.
#![tactic(auto)]

mod tell;

ghost use Rattle.std.specs.Prelude.{length};
ghost use Rattle.planner.specs.Planning.{plan as plan_of};
ghost use Rattle.operators.specs.Operators.{plan_operator};
ghost use Rattle.commit.specs.Asking.{ask as ask_of};
ghost use Rattle.commit.specs.Committing.{commit as commit_of};
ghost use Rattle.export_plan.specs.Exported.{PlanExported, CommitExported, AskExported};

use exports::BAD_LENGTH;
use operators::SharedOrder;
pub use tell::tell_plan;

// Plans b records on a pack: `planner_code::plan`. The answer has 8 numbers: 0, the length, F and five counts.
pub fn musseltwig_plan(
    pack: &[u8],
    s: usize,
    k: usize,
    b: usize,
    work: &mut [u16],
    out: &mut [u8],
    answer: &mut [usize],
) -> usize
    ensures { PlanExported
        (plan_of pack.now (record { s = s; k = k; b = b }) (length work.old) (length out.old))
        work.old work.new out.old out.new answer.old answer.new result }
{
    if answer.len() < 8 {
        return BAD_LENGTH;
    }
    let result = planner_code::plan(pack, s, k, b, work, out);
    tell::tell_plan(result, answer)
}

// Plans one operator's records: `operators_code::plan_operator`. The answer is that of `musseltwig_plan`.
pub fn musseltwig_plan_operator(
    pack: &[u8],
    s: usize,
    k: usize,
    wish: usize,
    other: usize,
    work: &mut [u16],
    out: &mut [u8],
    answer: &mut [usize],
) -> usize
    ensures { PlanExported
        (plan_operator pack.now (record { s = s; k = k; wish = wish; other = other }) (length work.old)
        (length out.old))
        work.old work.new out.old out.new answer.old answer.new result }
{
    if answer.len() < 8 {
        return BAD_LENGTH;
    }
    let order = SharedOrder { s, k, wish, other };
    let result = operators_code::plan_operator(pack, order, work, out);
    tell::tell_plan(result, answer)
}

// What planning would give: `ask_code::ask`. The answer has 12 numbers: 0, F, five counts and five copies.
pub fn musseltwig_ask(
    pack: &[u8],
    s: usize,
    k: usize,
    b: usize,
    work: &mut [u16],
    answer: &mut [usize],
) -> usize
    ensures { AskExported (record { s = s; k = k; b = b })
        (ask_of pack.now (record { s = s; k = k; b = b }) (length work.old))
        work.old work.new answer.old answer.new result }
{
    if answer.len() < 12 {
        return BAD_LENGTH;
    }
    let result = ask_code::ask(pack, s, k, b, work);
    tell::tell_offer(result, answer)
}

// Writes the placement of the split with these counts: `commit_code::commit`. The answer is that of `musseltwig_plan`.
pub fn musseltwig_commit(
    pack: &[u8],
    s: usize,
    k: usize,
    b: usize,
    counts: &[usize; 5],
    out: &mut [u8],
    answer: &mut [usize],
) -> usize
    ensures { CommitExported
        (commit_of pack.now (record { s = s; k = k; b = b }) counts.now (length out.old))
        out.old out.new answer.old answer.new result }
{
    if answer.len() < 8 {
        return BAD_LENGTH;
    }
    let result = commit_code::commit(pack, s, k, b, *counts, out);
    tell::tell_plan(result, answer)
}
