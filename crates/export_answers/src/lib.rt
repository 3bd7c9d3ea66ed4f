// Answers as numbers, put at the start of a slice that a caller lends.
#![tactic(auto)]

ghost use Rattle.std.specs.Prelude.{◌≡◌, ◌+◌, ◌≤◌, [], ◌∷◌, ◌++◌, length};
ghost use Rattle.lists.specs.Lists.{over_start};
ghost use Rattle.refusal.specs.Refusals.{result as result_of, refusal_outcome};
ghost use Rattle.refusal.specs.Checked.{writing_outcome};
ghost use Rattle.exports.specs.Exports.{Put};

use refusal::Refusal;

// Puts the numbers at the start of `answer`.
pub fn put(answer: &mut [usize], numbers: &[usize])
    requires { length numbers.now ≤ length answer.old }
    ensures { answer.new ≡ over_start numbers.now answer.old }
{
    answer[..numbers.len()].copy_from_slice(numbers);
}

// Puts bytes at the start of `answer`, as a number each.
pub fn put_bytes(answer: &mut [usize], bytes: &[u8])
    requires { length bytes.now ≤ length answer.old }
    ensures { answer.new ≡ over_start bytes.now answer.old }
{
    for (place, byte) in bytes.iter().enumerate() {
        answer[place] = usize::from(*byte);
    }
}

// Puts numbers in two parts.
pub fn put_two(answer: &mut [usize], first: &[usize], second: &[usize])
    requires { length first.now + length second.now ≤ length answer.old }
    ensures { answer.new ≡ over_start (first.now ++ second.now) answer.old }
{
    put(answer, first);
    let at = first.len();
    put(&mut answer[at..], second);
}

// Puts numbers in three parts.
pub fn put_three(answer: &mut [usize], first: &[usize], second: &[usize], third: &[usize])
    requires { length first.now + length second.now + length third.now ≤ length answer.old }
    ensures { answer.new ≡ over_start (first.now ++ (second.now ++ third.now)) answer.old }
{
    put_two(answer, first, second);
    let at = first.len() + second.len();
    put(&mut answer[at..], third);
}

// Puts a refusal's number and place; answers the number.
pub fn refused(e: Refusal, answer: &mut [usize]) -> usize
    requires { 2 ≤ length answer.old }
    ensures { Put (refusal_outcome e) answer.old answer.new result }
{
    let number = refusal_code::number(e);
    let place = refusal_code::place(e);
    put(answer, &[number, place]);
    number
}

// Puts a result of one value; answers 0.
pub fn value(v: usize, answer: &mut [usize]) -> usize
    requires { 2 ≤ length answer.old }
    ensures { Put (result_of (v ∷ [])) answer.old answer.new result }
{
    put(answer, &[0, v]);
    0
}

// Puts what a call that only writes answers: how many bytes or entries, or the refusal.
pub fn writing(wrote: Result<usize, Refusal>, answer: &mut [usize]) -> usize
    requires { 2 ≤ length answer.old }
    ensures { Put (writing_outcome wrote) answer.old answer.new result }
{
    match wrote {
        Ok(n) => value(n, answer),
        Err(e) => refused(e, answer),
    }
}
