// The line of the program `check`, put into a slice that is long enough.
ghost use Rattle.std.specs.Prelude.{◌≡◌, ◌≤◌, length};
ghost use Rattle.packing.specs.Load.{most};
ghost use Rattle.report.specs.Programs.{check_line};
ghost use Rattle.report.specs.Replies.{Replied, line_needed};
ghost use Rattle.report_check.specs.Load.{rows_of, LoadAsked};

use placement::PlacementHead;
use report::Summary;

// The largest number of rows that hold one node. Where layer 0 has all rows its packing test has counted it, over the nodes themselves
// unless there are feeders.
fn largest_load(input: &[u8], head: PlacementHead, size: usize, load: usize) -> usize
    requires { LoadAsked input.now head size load }
    ensures { result ≡ most head.n (rows_of input.now head head.b) }
{
    let first = head.first;
    let b = head.b;
    if head.kind != 6 && size == b {
        return load;
    }
    rows_load::most_load(&input[first..], b, head.r, head.n)
}

// Puts the line that `check` prints for the input at the start of `out`, and answers its length.
pub(crate) fn check_line(input: &[u8], out: &mut [u8]) -> usize
    requires { line_needed ≤ length out.old }
    ensures { Replied (check_line input.now) result out.old out.new }
{
    let loaded = placement_code::check_loaded(input);
    let check = loaded.check;
    let layers = check.layers;
    let answer = check.answer;
    match answer {
        Err(e) => report_lines::refused_line(out, e),
        Ok(head) => {
            let n = head.n;
            let b = head.b;
            let size = layers[0].size;
            let most = largest_load(input, head, size, loaded.load);
            let mean = report_mean::mean_load(b, head.r, n);
            let summary = Summary {
                figure: head.figure,
                b,
                k: head.k,
                n,
                most,
                mean,
            };
            report_lines::accepted_line(out, summary)
        }
    }
}
