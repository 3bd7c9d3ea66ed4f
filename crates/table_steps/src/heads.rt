// Lines of the head: n and r, the nodes out of service, a layer's mu. Each finds its numbers after those of the pack's head so far.
ghost use Rattle.std.specs.Prelude.{◌≡◌};
ghost use Rattle.table.specs.Reading.{head_taken, add_table, add_out, add_layer};
ghost use Rattle.table.specs.Progress.{Finds, Adds, found_in};

use number::Reading;
use table::{Fault, Progress};

// Whether n and r are within their limits.
#[tactic(auto, unfolding(table::specs::Reading::head_taken))]
fn head_taken(n: usize, r: usize) -> bool
    ensures { result ≡ head_taken n r }
{
    2 <= n && n <= 255 && 2 <= r && r <= 5 && r <= n
}

// `table n r`.
pub fn add_table(
    p: Progress,
    numbers: &mut [usize],
    found: usize,
    line: usize,
) -> Result<Progress, Fault>
    requires { Finds p found numbers.old }
    ensures { Adds (add_table line (found_in p found numbers.old)) p numbers.old result numbers.new }
{
    let count = p.count;
    let layers = p.layers;
    let blocks = p.blocks;
    let place = p.place;
    let before = p.r;
    if before != 0 {
        return Err(Fault {
            number: 23,
            place: line,
        });
    }
    if found != 2 {
        return Err(Fault {
            number: 23,
            place: line,
        });
    }
    let n = numbers[count];
    let r = numbers[count + 1];
    if !head_taken(n, r) {
        return Err(Fault {
            number: 4,
            place: line,
        });
    }
    numbers[count + 2] = 0;
    Ok(Progress {
        n,
        r,
        count: count + 3,
        layers,
        blocks,
        place,
    })
}

// `out` and the nodes out of service.
pub fn add_out(
    p: Progress,
    numbers: &mut [usize],
    found: usize,
    line: usize,
) -> Result<Progress, Fault>
    requires { Finds p found numbers.old }
    ensures { Adds (add_out line (found_in p found numbers.old)) p numbers.old result numbers.new }
{
    let n = p.n;
    let r = p.r;
    let count = p.count;
    let layers = p.layers;
    let blocks = p.blocks;
    let place = p.place;
    if count != 4 {
        return Err(Fault {
            number: 23,
            place: line,
        });
    }
    let end = count + found;
    if !crate::nodes::in_order(&numbers[count..end], n) {
        return Err(Fault {
            number: 4,
            place: line,
        });
    }
    numbers[3] = found;
    Ok(Progress {
        n,
        r,
        count: end,
        layers,
        blocks,
        place,
    })
}

// `mu` and a layer's mu.
pub fn add_layer(
    p: Progress,
    numbers: &mut [usize],
    found: usize,
    line: usize,
) -> Result<Progress, Fault>
    requires { Finds p found numbers.old }
    ensures { Adds (add_layer line (found_in p found numbers.old)) p numbers.old result numbers.new }
{
    let n = p.n;
    let r = p.r;
    let count = p.count;
    let layers = p.layers;
    let blocks = p.blocks;
    let place = p.place;
    if r <= layers {
        return Err(Fault {
            number: 23,
            place: line,
        });
    }
    if found != 1 {
        return Err(Fault {
            number: 23,
            place: line,
        });
    }
    let mu = numbers[count];
    if mu < 1 {
        return Err(Fault {
            number: 4,
            place: line,
        });
    }
    if 4_096 < mu {
        return Err(Fault {
            number: 4,
            place: line,
        });
    }
    numbers[count + 1] = 0;
    Ok(Progress {
        n,
        r,
        count: count + 2,
        layers: layers + 1,
        blocks,
        place,
    })
}
