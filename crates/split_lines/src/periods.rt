// The entries of a line by whole periods of copies: each from the line below and the entry a period before it. They are made a
// period at a time, so that none of those that are made together needs another of them.
ghost use Rattle.std.specs.Prelude.{◌+◌, ◌≤◌, min, length};
ghost use Rattle.split.specs.Working.{Stepping, Periods};

// Those of the first period.
fn first_periods(periods: &mut [u16], line: &[u16], size: usize, step: usize, cost: u16)
    requires { Stepping size step cost line.now × Periods size step cost line.now 0 periods.old }
    ensures { Periods size step cost line.now (min step (length line.now)) periods.new }
{
    for i in 0..step.min(line.len()) {
        periods[size + i] = line[i].min(cost);
    }
}

// Those of the period that begins at place `from`.
fn next_periods(periods: &mut [u16], line: &[u16], size: usize, step: usize, cost: u16, from: usize)
    requires { Stepping size step cost line.now × (step ≤ from) × (from ≤ length line.now) × Periods size step cost line.now from periods.old }
    ensures { Periods size step cost line.now (min (from + step) (length line.now)) periods.new }
{
    for i in from..line.len().min(from + step) {
        periods[size + i] = line[i].min(cost + periods[size + i - step]);
    }
}

// All of them.
pub(crate) fn whole_periods(periods: &mut [u16], line: &[u16], size: usize, step: usize, cost: u16)
    requires { Stepping size step cost line.now × Periods size step cost line.now 0 periods.old }
    ensures { Periods size step cost line.now (length line.now) periods.new }
{
    first_periods(periods, line, size, step, cost);
    for from in (step..line.len()).step_by(step) {
        next_periods(periods, line, size, step, cost, from);
    }
}
