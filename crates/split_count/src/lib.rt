// The count of one layer of the named split.
#![tactic(auto)]

ghost use Rattle.std.specs.Prelude.{◌≡◌, cond, ◌+◌, ◌*◌, ◌≤◌, ◌<◌, min, length, leb};
ghost use Rattle.placement.specs.declared.Rule.TheVariants.{NestedFloors};
ghost use Rattle.split.specs.Splits.{last_least, best_count};
ghost use Rattle.split.specs.Table.{Rising, sum_at, step_loss};
ghost use Rattle.split.specs.Working.{Countable, Tabled};

use layers::LayerHead;
use placement::Order;
use split::Steps;

// The largest count that leaves the least loss of `left` records, where each record in the layer costs `each`.
fn count_by_records(below: &[u16], each: usize, left: usize) -> usize
    requires { (each ≤ 8192) × (left < length below.now) × (length below.now ≤ 4097) × Rising below.now }
    ensures { result ≡ last_least (sum_at (λ c. c * each) below.now left) left }
{
    let mut best: usize = 0;
    let mut least = usize::from(below[left]);
    for c in 0..left {
        let more = c + 1;
        let loss = more * each + usize::from(below[left - more]);
        if loss <= least {
            best = more;
            least = loss;
        }
    }
    best
}

// The count that is looked at after c, of those that copies for `held` records hold: where these cost no more than one record more,
// the largest of them is best.
fn next_count(c: usize, held: usize, left: usize, records: usize, paid: usize) -> usize
    requires { c < left }
    ensures { result ≡ cond (leb paid records) (min held left) (c + 1) }
{
    if paid <= records {
        return held.min(left);
    }
    c + 1
}

// The largest count of the layer above `below` that leaves the least loss of `left` records. What the copies cost changes
// only where one more is taken: whole periods of them, and those that are left. It ends where the layer alone loses more than the least.
fn count_by_both(below: &[u16], u: Steps, left: usize) -> usize
    requires { Countable u below.now left }
    ensures { result ≡ last_least (sum_at (step_loss u) below.now left) left }
{
    let size = u.size;
    let each = u.each;
    let period = u.period;
    let costs = u.costs;
    let whole = costs[period];
    let mut best: usize = 0;
    let mut least = usize::from(below[left]);
    let mut copies: usize = 0;
    let mut paid: usize = 0;
    let mut c: usize = 0;
    // A while loop: a turn takes one more copy and leaves the count, or moves the count on by one or many.
    while c < left {
        if copies * size == c {
            copies += 1;
            paid = copies / period * whole + costs[copies % period];
            if least < ((c + 1) * each).min(paid) {
                return best;
            }
            continue;
        }
        c = next_count(c, copies * size, left, (c + 1) * each, paid);
        let loss = (c * each).min(paid) + usize::from(below[left - c]);
        if loss <= least {
            best = c;
            least = loss;
        }
    }
    best
}

// The same; where a copy costs all the records that it holds, by the records alone.
fn best_count(below: &[u16], u: Steps, left: usize) -> usize
    requires { Countable u below.now left }
    ensures { result ≡ last_least (sum_at (step_loss u) below.now left) left }
{
    let size = u.size;
    let each = u.each;
    let costs = u.costs;
    if size * each <= costs[1] {
        return count_by_records(below, each, left);
    }
    count_by_both(below, u, left)
}

// The count of layer x where the layers up to it share `left` records, from the table.
pub fn layer_count(
    layers: [LayerHead; 5],
    order: Order,
    work: &[u16],
    x: usize,
    left: usize,
) -> usize
    requires { Tabled layers order work.now × (x < order.s) × (left ≤ order.b) }
    ensures { result ≡ best_count NestedFloors layers order.s order.k x left }
{
    let b = order.b;
    let w = b + 1;
    let from = x * w;
    let end = from + w;
    let u = split_steps::steps(layers, order, x);
    best_count(&work[from..end], u, left)
}
