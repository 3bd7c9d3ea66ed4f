// The calls on a placement, for C and Rust: a slice is a pointer and a length, the answer's numbers are put into the last one.
#![tactic(auto)]

ghost use Rattle.std.specs.Prelude.{length};
ghost use Rattle.exports.specs.Exports.{Told, fits, WritingExported};
ghost use Rattle.curve.specs.Curve.{check_curve};
ghost use Rattle.page.specs.Page.{check_page};
ghost use Rattle.worst.specs.Worst.{check_worst};
ghost use Rattle.rounds.specs.Rounds.{check_rounds};
ghost use Rattle.rounds.specs.Answers.{rounds_answer, rounds_outcome};
ghost use Rattle.export_placement.specs.Exported.{WorstExported};

use exports::BAD_LENGTH;

// The placement's figure for every number of failures: `curve_code::curve`. The answer has 2 numbers: 0 and the entries written.
pub fn musseltwig_curve(placement: &[u8], out: &mut [u16], answer: &mut [usize]) -> usize
    ensures { WritingExported (check_curve placement.now (length out.old))
        out.old out.new answer.old answer.new result }
{
    if answer.len() < 2 {
        return BAD_LENGTH;
    }
    let wrote = curve_code::curve(placement, out);
    export_answers::writing(wrote, answer)
}

// The placement's page: `page_code::page`. The answer has 2 numbers: 0 and the bytes written.
pub fn musseltwig_page(placement: &[u8], out: &mut [u8], answer: &mut [usize]) -> usize
    ensures { WritingExported (check_page placement.now (length out.old))
        out.old out.new answer.old answer.new result }
{
    if answer.len() < 2 {
        return BAD_LENGTH;
    }
    let wrote = page_code::page(placement, out);
    export_answers::writing(wrote, answer)
}

// The true worst case: `worst_code::worst_case`. The answer has 2 numbers: 0 and the fewest usable records.
pub fn musseltwig_worst_case(placement: &[u8], out: &mut [u8], answer: &mut [usize]) -> usize
    ensures { WorstExported (check_worst placement.now (length out.old))
        out.old out.new answer.old answer.new result }
{
    if answer.len() < 2 {
        return BAD_LENGTH;
    }
    let fewest = worst_code::worst_case(placement, out);
    export_answers::writing(fewest, answer)
}

// Cuts and repairs in turn, q rounds: `rounds_code::rounds`. The answer has 2 numbers: 0 and the usable records.
pub fn musseltwig_rounds(placement: &[u8], q: usize, answer: &mut [usize]) -> usize
    ensures { Told (fits 2 answer.old) (rounds_outcome (rounds_answer (check_rounds placement.now q)))
        answer.old answer.new result }
{
    if answer.len() < 2 {
        return BAD_LENGTH;
    }
    let usable = rounds_code::rounds(placement, q);
    export_answers::writing(usable, answer)
}
