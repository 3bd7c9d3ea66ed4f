// Certifying, for C and Rust: a slice is a pointer and a length, the answer's numbers are put into the last one.
#![tactic(auto)]

ghost use Rattle.std.specs.Prelude.{length};
ghost use Rattle.certify.specs.Certify.{certify as certify_of};
ghost use Rattle.export_plan.specs.Exported.{CommitExported};

use exports::BAD_LENGTH;

// Certifies a file of bare rows: `certify_code::certify`. The answer has 8 numbers, as that of `musseltwig_commit`: 0, the length, F and
// five counts, of which the one of the layer taken is b and the others are 0.
pub fn musseltwig_certify(rows: &[u8], out: &mut [u8], answer: &mut [usize]) -> usize
    ensures { CommitExported (certify_of rows.now (length out.old))
        out.old out.new answer.old answer.new result }
{
    if answer.len() < 8 {
        return BAD_LENGTH;
    }
    let result = certify_code::certify(rows, out);
    export_plan::tell_plan(result, answer)
}
