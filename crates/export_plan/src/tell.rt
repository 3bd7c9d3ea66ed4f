// What planning and asking answer, as numbers.
ghost use Rattle.std.specs.Prelude.{◌≤◌, ◌∷◌, ◌++◌, length};
ghost use Rattle.refusal.specs.Refusals.{result as result_of};
ghost use Rattle.planner.specs.Answers.{plan_outcome};
ghost use Rattle.commit.specs.Asking.{ask_outcome};
ghost use Rattle.exports.specs.Exports.{Put};

use commit::AskResult;
use planner::{PlanResult, PlannedFile};

// Puts a plan's length, its figure and its counts; answers 0.
fn planned(size: usize, figure: usize, counts: [usize; 5], answer: &mut [usize]) -> usize
    requires { 8 ≤ length answer.old }
    ensures { Put (result_of (size ∷ figure ∷ counts)) answer.old answer.new result }
{
    export_answers::put_two(answer, &[0, size, figure], &counts);
    0
}

// Puts what planning answers, and committing and certifying, which answer as it does.
pub fn tell_plan(plan: PlanResult, answer: &mut [usize]) -> usize
    requires { 8 ≤ length answer.old }
    ensures { Put (plan_outcome plan) answer.old answer.new result }
{
    let says = plan.answer;
    let counts = plan.counts;
    match says {
        Ok(PlannedFile { length, figure }) => planned(length, figure, counts, answer),
        Err(e) => export_answers::refused(e, answer),
    }
}

// Puts an offer's figure, counts and copies; answers 0.
fn offered(figure: usize, counts: [usize; 5], copies: [usize; 5], answer: &mut [usize]) -> usize
    requires { 12 ≤ length answer.old }
    ensures { Put (result_of (figure ∷ (counts ++ copies))) answer.old answer.new result }
{
    export_answers::put_three(answer, &[0, figure], &counts, &copies);
    0
}

// Puts what asking answers.
pub(crate) fn tell_offer(offer: AskResult, answer: &mut [usize]) -> usize
    requires { 12 ≤ length answer.old }
    ensures { Put (ask_outcome offer) answer.old answer.new result }
{
    let says = offer.answer;
    let counts = offer.counts;
    let copies = offer.copies;
    match says {
        Ok(figure) => offered(figure, counts, copies, answer),
        Err(e) => export_answers::refused(e, answer),
    }
}
