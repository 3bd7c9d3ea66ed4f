// The certificate line, for C and Rust: a slice is a pointer and a length, the answer's numbers are put into the last one.
#![tactic(auto)]

ghost use Rattle.std.specs.Prelude.{length};
ghost use Rattle.report.specs.Replies.{check_into};
ghost use Rattle.export_report.specs.Exported.{ReplyExported};

use exports::BAD_LENGTH;

// What the program `check` prints of a placement: `report_check::check_reply`. The answer has 2 numbers: 0 and the line's length.
pub fn musseltwig_check_reply(placement: &[u8], out: &mut [u8], answer: &mut [usize]) -> usize
    ensures { ReplyExported (check_into placement.now (length out.old))
        out.old out.new answer.old answer.new result }
{
    if answer.len() < 2 {
        return BAD_LENGTH;
    }
    let reply = report_check::check_reply(placement, out);
    export_answers::writing(reply, answer)
}
