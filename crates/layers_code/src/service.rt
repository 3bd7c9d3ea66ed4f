// Nodes out of service in all rows: refusal 15.
ghost use Rattle.std.specs.Prelude.{◌≡◌, ◌+◌, ◌*◌, ◌≤◌, length, drop};
ghost use Rattle.refusal.specs.Checked.{verdict};
ghost use Rattle.packing.specs.Rows.{rows_at};
ghost use Rattle.layers.specs.Layers.{check_service};
ghost use Rattle.layers.specs.Answers.{site_of, DarkFits};

use crowding_code::row_start;
use layers::Base;
use refusal::Refusal;

// Refusal 15 over the rows that start at `at`.
pub fn check_service(bytes: &[u8], at: usize, base: Base, rows: usize) -> Result<(), Refusal>
    requires r_in_bounds { at + rows * base.r ≤ length bytes.now }
    requires dark_fits { DarkFits base.dark }
    ensures { result
        ≡ verdict (check_service (site_of base) at (rows_at base.r rows (drop at bytes.now))) }
{
    let r = base.r;
    let dark = base.dark;
    let naming = dark_code::first_naming(&bytes[at..], rows, r, dark);
    if let Some(row) = naming {
        return Err(Refusal::OutOfService(row_start(at, r, row)));
    }
    Ok(())
}
