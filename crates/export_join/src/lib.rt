// Joining packs, for C and Rust: a slice is a pointer and a length, the answer's numbers are put into the last one.
#![tactic(auto)]

ghost use Rattle.std.specs.Prelude.{[], ◌∷◌, length};
ghost use Rattle.join.specs.Join.{join as join_of};
ghost use Rattle.export_join.specs.Exported.{JoinExported};

use exports::BAD_LENGTH;

// Joins one pack: `join_code::join_one`. The answer has 2 numbers: 0 and the joined pack's length.
pub fn musseltwig_join_one(first: &[u8], out: &mut [u8], answer: &mut [usize]) -> usize
    ensures { JoinExported (join_of (first.now ∷ []) (length out.old))
        out.old out.new answer.old answer.new result }
{
    if answer.len() < 2 {
        return BAD_LENGTH;
    }
    let joined = join_code::join_one(first, out);
    export_answers::writing(joined, answer)
}

// Joins two packs: `join_code::join_two`. The answer is that of `musseltwig_join_one`.
pub fn musseltwig_join_two(
    first: &[u8],
    second: &[u8],
    out: &mut [u8],
    answer: &mut [usize],
) -> usize
    ensures { JoinExported (join_of (first.now ∷ second.now ∷ []) (length out.old))
        out.old out.new answer.old answer.new result }
{
    if answer.len() < 2 {
        return BAD_LENGTH;
    }
    let joined = join_code::join_two(first, second, out);
    export_answers::writing(joined, answer)
}

// Joins three packs: `join_code::join_three`. The answer is that of `musseltwig_join_one`.
pub fn musseltwig_join_three(
    first: &[u8],
    second: &[u8],
    third: &[u8],
    out: &mut [u8],
    answer: &mut [usize],
) -> usize
    ensures { JoinExported
        (join_of (first.now ∷ second.now ∷ third.now ∷ []) (length out.old))
        out.old out.new answer.old answer.new result }
{
    if answer.len() < 2 {
        return BAD_LENGTH;
    }
    let joined = join_code::join_three(first, second, third, out);
    export_answers::writing(joined, answer)
}
