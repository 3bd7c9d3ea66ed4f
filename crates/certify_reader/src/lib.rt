// Reading a file of bare rows.
#![tactic(auto)]

mod order;
mod start;

ghost use Rattle.std.specs.Prelude.{◌≡◌, ◌≤◌, length};
ghost use Rattle.refusal.specs.Checked.{verdict};
ghost use Rattle.layers.specs.Answers.{site_of, DarkFits};
ghost use Rattle.certify.specs.Bare.{check_bare_rows, read_bare};
ghost use Rattle.certify.specs.Answers.{bare_read};

use certify::BareRead;
use layers::Base;
use refusal::Refusal;

// The b rows that start at `at`: good, or refusal 1 or 5 for their length, 6 over all of them, 15.
fn check_rows(bytes: &[u8], at: usize, base: Base, b: usize) -> Result<(), Refusal>
    requires b_bound { (b ≤ 4_096) × (base.r ≤ 5) × (at ≤ length bytes.now) }
    requires dark_fits { DarkFits base.dark }
    ensures { result ≡ verdict (check_bare_rows (site_of base) b bytes.now at) }
{
    let r = base.r;
    let end = at + b * r;
    if bytes.len() < end {
        return Err(Refusal::Ended(bytes.len()));
    }
    if end < bytes.len() {
        return Err(Refusal::Trailing(end));
    }
    layers_code::check_ascending(bytes, at, base, b, 0)?;
    layers_code::check_service(bytes, at, base, b)
}

// Checks a file of bare rows: the number 7, n, r and the nodes out of service, then s, k and b, then the rows. Gives its numbers and
// the place of its first row, or refusal 1 to 6 or 15.
pub fn read_bare(bytes: &[u8]) -> Result<BareRead, Refusal>
    ensures { result ≡ bare_read (read_bare bytes.now) }
{
    let start = start::read_start(bytes)?;
    let base = start.base;
    let numbers = order::read_order(bytes, base, start.next)?;
    let order = numbers.order;
    let first = numbers.next;
    check_rows(bytes, first, base, order.b)?;
    Ok(BareRead { base, order, first })
}
