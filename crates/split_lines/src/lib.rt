// A line of the planner's table from the one before it.
#![tactic(auto)]

mod passes;
mod periods;

ghost use Rattle.std.specs.Prelude.{◌≡◌, ◌-◌, ◌≤◌, map, get_or};
ghost use Rattle.std.proofs.lemmas.List.Edits.{sets};
ghost use Rattle.lists.specs.Lists.{up_to};
ghost use Rattle.split.specs.Table.{StepLimits, stepped, line_entry};
ghost use Rattle.split.specs.Working.{part, LineBelow};

use split::Steps;

// Writes the line of w entries at place `at`, the same as the line before it.
fn repeat_line(work: &mut [u16], at: usize, w: usize)
    requires { LineBelow at w work.old }
    ensures { work.new ≡ sets work.old at (map (λ i. get_or (part (at - w) w work.old) i 0) (up_to w)) }
{
    work.copy_within(at - w..at, at);
}

// Writes the line of w entries at place `at` from the line before it, where each record in the layer is paid for: with one
// more record an entry is `each` above the one before it, or all the records are below.
fn step_by_records(work: &mut [u16], at: usize, w: usize, each: usize)
    requires { (each ≤ 8192) × LineBelow at w work.old }
    ensures { work.new ≡ sets work.old at (map (stepped 1 each (part (at - w) w work.old)) (up_to w)) }
{
    let from = at - w;
    let mut records: usize = 0;
    for i in 0..w {
        let under = usize::from(work[from + i]);
        records = under.min(records + each);
        work[at + i] = records as u16;
    }
}

// The same. Entries made one by one wait for each other, so where no record is of use the line before it is copied.
fn raise_by_records(work: &mut [u16], at: usize, w: usize, each: usize)
    requires { (each ≤ 8192) × LineBelow at w work.old }
    ensures { work.new ≡ sets work.old at (map (stepped 1 each (part (at - w) w work.old)) (up_to w)) }
{
    let from = at - w;
    if crate::passes::is_gentle(&work[from..at], each as u16) {
        repeat_line(work, at, w);
    } else {
        step_by_records(work, at, w, each);
    }
}

// The same where copies of the layer's blocks are paid for as well: `periods` has the entries by whole periods of copies, each
// a copy's records further on.
fn raise_by_both(work: &mut [u16], at: usize, w: usize, u: Steps)
    requires { StepLimits u × LineBelow at w work.old }
    ensures { work.new ≡ sets work.old at (map (line_entry u (part (at - w) w work.old)) (up_to w)) }
{
    let size = u.size;
    let each = u.each;
    let period = u.period;
    let costs = u.costs;
    let from = at - w;
    let end = size + w;
    let whole = costs[period].min(8192) as u16;
    let mut periods = [0u16; 8193];
    crate::periods::whole_periods(&mut periods, &work[from..at], size, period * size, whole);
    raise_by_records(work, at, w, each);
    crate::passes::lower(work, at, w, &periods[size..end], 0);
    crate::passes::lower_by_copies(work, at, w, u, &periods);
}

// The same, whichever costs less. A copy that costs the mark, or all the records that it holds, is of no use, nor is a record that
// costs the mark.
pub fn raise_line(work: &mut [u16], at: usize, w: usize, u: Steps)
    requires { StepLimits u × LineBelow at w work.old }
    ensures { work.new ≡ sets work.old at (map (line_entry u (part (at - w) w work.old)) (up_to w)) }
{
    let size = u.size;
    let each = u.each;
    let costs = u.costs;
    if costs[1] < (size * each).min(8192) {
        raise_by_both(work, at, w, u);
    } else if each < 8192 {
        raise_by_records(work, at, w, each);
    } else {
        repeat_line(work, at, w);
    }
}
