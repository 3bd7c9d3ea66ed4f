// Making the file of bare rows: its bytes, and what its check says.
ghost use Rattle.std.specs.Prelude.{◌≡◌, ◌≤◌, ◌<◌, length};
ghost use Rattle.certify.specs.Bare.{read_bare};
ghost use Rattle.table.specs.Progress.{Room, DraftFits, PackedIn, draft_of, pack_most};
ghost use Rattle.rows_text.specs.Making.{made_as, rows_draft, rows_of, rows_input};

use table::{Fault, Progress, TEXT_MOST};

// What the check of the bare rows says: how many bytes they have, or its refusal with the line of its row.
fn check_made(made: &[u8], lines: &[usize], first: usize, r: usize) -> Result<usize, Fault>
    requires { 0 < r }
    ensures { result ≡ made_as (read_bare made.now) (length made.now) lines.now first r }
{
    match certify_reader::read_bare(made) {
        Ok(_) => Ok(made.len()),
        Err(e) => {
            let number = refusal_code::number(e);
            let place = draft_code::line_at(lines, refusal_code::place(e), first, r);
            Err(Fault { number, place })
        }
    }
}

// The bare rows of a draft, at the start of `out`.
fn rows_draft(
    p: Progress,
    numbers: &[usize],
    rows: &[u8],
    lines: &[usize],
    out: &mut [u8],
) -> Result<usize, Fault>
    requires draft_fits { DraftFits p numbers.now rows.now lines.now }
    requires pack_most_in_bounds { pack_most ≤ length out.old }
    ensures { PackedIn (rows_draft (draft_of p numbers.now rows.now lines.now)) result
        out.old out.new }
{
    let r = p.r;
    let count = p.count;
    let blocks = p.blocks;
    let place = p.place;
    let first = draft_code::write_draft(&numbers[0..count], &rows[0..place], out);
    let end = first + place;
    check_made(&out[0..end], &lines[0..blocks], first, r)
}

// The bare rows of a text, at the start of `out`; the other three slices are for work.
fn make_rows(
    text: &[u8],
    numbers: &mut [usize],
    rows: &mut [u8],
    lines: &mut [usize],
    out: &mut [u8],
) -> Result<usize, Fault>
    requires room { Room numbers.old rows.old lines.old }
    requires pack_most_in_bounds { pack_most ≤ length out.old }
    ensures { PackedIn (rows_of text.now) result out.old out.new }
{
    let p = rows_text_reader::read_text(text, numbers, rows, lines)?;
    rows_draft(p, numbers, rows, lines, out)
}

// The bare rows of a program's input, at the start of `out`; too long a text is refused.
pub(crate) fn rows_input(
    input: &[u8],
    numbers: &mut [usize],
    rows: &mut [u8],
    lines: &mut [usize],
    out: &mut [u8],
) -> Result<usize, Fault>
    requires room { Room numbers.old rows.old lines.old }
    requires pack_most_in_bounds { pack_most ≤ length out.old }
    ensures { PackedIn (rows_input input.now) result out.old out.new }
{
    if TEXT_MOST <= input.len() {
        return Err(Fault {
            number: 24,
            place: TEXT_MOST,
        });
    }
    make_rows(input, numbers, rows, lines, out)
}
