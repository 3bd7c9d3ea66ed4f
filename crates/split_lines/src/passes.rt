// Passes over a line, one for each number of copies beside whole periods.
ghost use Rattle.std.specs.Prelude.{◌≡◌, ◌&&◌, map, ◌-◌, ◌%◌, ◌≤◌, min, eqb, ltb, length};
ghost use Rattle.std.proofs.lemmas.List.Edits.{sets};
ghost use Rattle.lists.specs.Lists.{up_to, count, tally};
ghost use Rattle.split.specs.Table.{StepLimits, Rising, line_entry};
ghost use Rattle.split.specs.Working.{part, LineBelow, Lowerable, lowered, climbs, ByPeriods};

use split::Steps;

// Each of n entries from place `at` on becomes the smaller of what it is and `cost` above the entry of `line`.
pub(crate) fn lower(work: &mut [u16], at: usize, n: usize, line: &[u16], cost: u16)
    requires { Lowerable at n cost work.old line.now }
    ensures { work.new ≡ sets work.old at (map (lowered at cost work.old line.now) (up_to n)) }
{
    for i in 0..n {
        work[at + i] = work[at + i].min(cost + line[i]);
    }
}

// How many of the first n entries of a line have the entry `shift` places further on more than `cost` above them.
fn climbing(line: &[u16], shift: usize, n: usize, cost: u16) -> u16
    requires { (n ≤ 4097) × Lowerable shift n cost line.now line.now }
    ensures { result ≡ count (climbs shift cost line.now) (up_to n) }
{
    let mut found: u16 = 0;
    for i in 0..n {
        found += u16::from(cost + line[i] < line[shift + i]);
    }
    found
}

// Whether d copies cost, anywhere in the line, all that their records add to it: then they, and more, are of no use. It takes a pass
// itself, so it is looked for at every eighth number of copies.
fn is_enough(line: &[u16], d: usize, shift: usize, n: usize, cost: u16) -> bool
    requires { (n ≤ 4097) × Lowerable shift n cost line.now line.now }
    ensures { result ≡ (eqb (d % 8) 4 && eqb (count (climbs shift cost line.now) (up_to n)) 0) }
{
    if d % 8 == 4 {
        return climbing(line, shift, n, cost) == 0;
    }
    false
}

// Whether no entry of a line is more than `each` above the one before it: then the records of a layer, at `each`, are of no use.
pub(crate) fn is_gentle(line: &[u16], each: u16) -> bool
    requires { (each ≤ 8192) × (length line.now ≤ 4097) × Rising line.now }
    ensures { result ≡ eqb (count (climbs 1 each line.now) (up_to (length line.now - 1))) 0 }
{
    if line.is_empty() {
        return true;
    }
    climbing(line, 1, line.len() - 1, each) == 0
}

// Fewer copies than a period beside the whole periods: one pass over the line for each number of them. `back` are the records
// of one copy fewer, and copies past the line's start cost no less.
pub(crate) fn lower_by_copies(work: &mut [u16], at: usize, w: usize, u: Steps, periods: &[u16])
    requires { StepLimits u × LineBelow at w work.old × ByPeriods u (part (at - w) w work.old) at w work.old periods.now }
    ensures { work.new ≡ sets work.old at (map (line_entry u (part (at - w) w work.old)) (up_to w)) }
{
    let period = u.period;
    let costs = u.costs;
    let mut back: usize = 0;
    for d in 1..period {
        if w <= back {
            return;
        }
        let cost = costs[d].min(8192) as u16;
        if is_enough(periods, d, back + u.size, w - back, cost) {
            return;
        }
        lower(work, at + back, w - back, periods, cost);
        back += u.size;
    }
}
