// What is made of a text's draft, of a table and of bare rows alike: its bytes, the line of a place, and the line that tells a fault.
#![tactic(auto)]

ghost use Rattle.std.specs.Prelude.{◌≡◌, ◌+◌, ◌-◌, ◌/◌, ◌≤◌, ◌<◌, ◌++◌, length, get_or};
ghost use Rattle.lists.specs.Lists.{All, over_start};
ghost use Rattle.number.specs.Numbers.{largest_number, forms_of};
ghost use Rattle.report.specs.Replies.{Replied};
ghost use Rattle.table.specs.Reading.{fault_line};
ghost use Rattle.table.specs.Progress.{pack_most};

use table::Fault;

// Writes the numbers' shortest forms and then the bytes to the start of `out`. Returns how many bytes the numbers take.
pub fn write_draft(head: &[usize], rows: &[u8], out: &mut [u8]) -> usize
    requires all { All (λ v. v ≤ largest_number) head.now }
    requires rows_in_bounds { length (forms_of head.now) + length rows.now ≤ length out.old }
    ensures { (result ≡ length (forms_of head.now))
        × (out.new ≡ over_start (forms_of head.now ++ rows.now) out.old) }
{
    let at = number_writer::write_numbers(out, head);
    rows_writer::copy_bytes(&mut out[at..], rows);
    at
}

// The line of the row at a place of a file whose first row is at `first`; 0 where there is none.
pub fn line_at(lines: &[usize], place: usize, first: usize, r: usize) -> usize
    requires { 0 < r }
    ensures { result ≡ get_or lines.now ((place - first) / r) 0 }
{
    let offset = place.saturating_sub(first);
    lines.get(offset / r).copied().unwrap_or(0)
}

// Puts the line of a fault at the start of `out`, and answers its length.
pub fn fault_line(out: &mut [u8], e: Fault) -> usize
    requires { pack_most ≤ length out.old }
    ensures { Replied (fault_line e) result out.old out.new }
{
    let number = e.number;
    let place = e.place;
    let numbers = [number, place];
    report_lines::line(out, b"refused", &numbers)
}
