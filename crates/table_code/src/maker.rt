// Making the pack: its bytes, and what its check says.
ghost use Rattle.std.specs.Prelude.{◌≡◌, ◌≤◌, ◌<◌, length};
ghost use Rattle.pack.specs.Pack.{read_pack};
ghost use Rattle.table.specs.Reading.{pack_draft, pack_of, pack_input};
ghost use Rattle.table.specs.Progress.{Room, DraftFits, PackedIn, draft_of, packed_as, pack_most};

use table::{Fault, Progress, TEXT_MOST};

// What the pack's check says: how many bytes it has, or its refusal with the line of its block.
fn check_made(pack: &[u8], lines: &[usize], first: usize, r: usize) -> Result<usize, Fault>
    requires { 0 < r }
    ensures { result ≡ packed_as (read_pack pack.now) (length pack.now) lines.now first r }
{
    let check = pack_code::check_pack(pack);
    let answer = check.answer;
    match answer {
        Ok(_) => Ok(pack.len()),
        Err(e) => {
            let number = refusal_code::number(e);
            let place = draft_code::line_at(lines, refusal_code::place(e), first, r);
            Err(Fault { number, place })
        }
    }
}

// The pack of a draft, at the start of `out`.
fn pack_draft(
    p: Progress,
    numbers: &[usize],
    rows: &[u8],
    lines: &[usize],
    out: &mut [u8],
) -> Result<usize, Fault>
    requires draft_fits { DraftFits p numbers.now rows.now lines.now }
    requires pack_most_in_bounds { pack_most ≤ length out.old }
    ensures { PackedIn (pack_draft (draft_of p numbers.now rows.now lines.now)) result
        out.old out.new }
{
    let r = p.r;
    let count = p.count;
    let blocks = p.blocks;
    let place = p.place;
    let first = draft_code::write_draft(&numbers[0..count], &rows[0..place], out);
    let end = first + place;
    check_made(&out[0..end], &lines[0..blocks], first, r)
}

// The pack of a text, at the start of `out`; the other three slices are for work.
fn make_pack(
    text: &[u8],
    numbers: &mut [usize],
    rows: &mut [u8],
    lines: &mut [usize],
    out: &mut [u8],
) -> Result<usize, Fault>
    requires room { Room numbers.old rows.old lines.old }
    requires pack_most_in_bounds { pack_most ≤ length out.old }
    ensures { PackedIn (pack_of text.now) result out.old out.new }
{
    let p = table_reader::read_text(text, numbers, rows, lines)?;
    pack_draft(p, numbers, rows, lines, out)
}

// The pack of a program's input, at the start of `out`; too long a text is refused.
pub(crate) fn pack_input(
    input: &[u8],
    numbers: &mut [usize],
    rows: &mut [u8],
    lines: &mut [usize],
    out: &mut [u8],
) -> Result<usize, Fault>
    requires room { Room numbers.old rows.old lines.old }
    requires pack_most_in_bounds { pack_most ≤ length out.old }
    ensures { PackedIn (pack_input input.now) result out.old out.new }
{
    if TEXT_MOST <= input.len() {
        return Err(Fault {
            number: 24,
            place: TEXT_MOST,
        });
    }
    make_pack(input, numbers, rows, lines, out)
}
