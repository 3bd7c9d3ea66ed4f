// The line of s and k.
ghost use Rattle.std.specs.Prelude.{◌≡◌, ◌≤◌};
ghost use Rattle.rows_text.specs.Reading.{order_taken, add_order};
ghost use Rattle.table.specs.Progress.{Finds, Adds, found_in};

use number::Reading;
use table::{Fault, Progress};

// Whether s and k are within their limits, and some node is in service.
#[tactic(auto, unfolding(rows_text::specs::Reading::order_taken))]
fn order_taken(p: Progress, s: usize, k: usize) -> bool
    requires { p.n ≤ 255 }
    ensures { result ≡ order_taken p.n p.r p.count s k }
{
    p.count < 4 + p.n && 1 <= s && s <= p.r && s <= k && k < p.n
}

// `order s k`.
pub(crate) fn add_order(
    p: Progress,
    numbers: &mut [usize],
    found: usize,
    line: usize,
) -> Result<Progress, Fault>
    requires { Finds p found numbers.old }
    ensures { Adds (add_order line (found_in p found numbers.old)) p numbers.old result numbers.new }
{
    let n = p.n;
    let r = p.r;
    let count = p.count;
    let layers = p.layers;
    let blocks = p.blocks;
    let place = p.place;
    if r == 0 {
        return Err(Fault {
            number: 23,
            place: line,
        });
    }
    if layers != 0 {
        return Err(Fault {
            number: 23,
            place: line,
        });
    }
    if found != 2 {
        return Err(Fault {
            number: 23,
            place: line,
        });
    }
    let s = numbers[count];
    let k = numbers[count + 1];
    if !order_taken(p, s, k) {
        return Err(Fault {
            number: 4,
            place: line,
        });
    }
    numbers[count + 2] = 0;
    Ok(Progress {
        n,
        r,
        count: count + 3,
        layers: 1,
        blocks,
        place,
    })
}
