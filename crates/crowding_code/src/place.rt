// Where a record's row starts in the file.
ghost use Rattle.std.specs.Prelude.{◌≡◌, ◌+◌, ◌*◌, ◌<◌, ◌^◌};

use packing::Record;

// The start of a record's row, where the first row is at `at` and each has r bytes.
pub fn row_start(at: usize, r: usize, row: Record) -> usize
    requires { at + row.0 * r < 2 ^ 64 }
    ensures { result ≡ at + row.0 * r }
{
    at + row.0 * r
}
