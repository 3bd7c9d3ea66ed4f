// Numbers right in fields of four characters, texts and blanks.
ghost use Rattle.std.specs.Prelude.{◌≡◌, ◌+◌, ◌≤◌, ◌<◌, length};
ghost use Rattle.std.proofs.lemmas.List.Edits.{sets};
ghost use Rattle.page.specs.Field.{blanks, field};
ghost use Rattle.page.specs.Asked.{lead};
ghost use Rattle.page_lines.specs.ByteFields.{byte_fields};

use packing::{Node, Record};

// The character of a field before its last, from the tenths of the number: a blank where there are none.
fn leading(tenths: usize) -> u8
    ensures { result ≡ lead tenths }
{
    if tenths == 0 {
        return b' ';
    }
    (48 + tenths % 10) as u8
}

// Puts a number of up to four digits right in the four bytes from `at` on.
fn put_right(out: &mut [u8], at: usize, v: usize)
    requires { (v < 10000) × (at + 4 ≤ length out.old) }
    ensures { out.new ≡ sets out.old at (field v) }
{
    let tens = v / 10;
    let hundreds = tens / 10;
    let thousands = hundreds / 10;
    out[at] = leading(thousands);
    out[at + 1] = leading(hundreds);
    out[at + 2] = leading(tens);
    out[at + 3] = (48 + v % 10) as u8;
}

// The field of a record's number.
pub(crate) fn put_record(out: &mut [u8], at: usize, number: Record)
    requires { (number.0 < 10000) × (at + 4 ≤ length out.old) }
    ensures { out.new ≡ sets out.old at (field number.0) }
{
    put_right(out, at, number.0);
}

// Puts the fields of the numbers from 0 to 255, one after another.
pub fn put_fields(fields: &mut [u8])
    requires { length fields.old ≡ 1024 }
    ensures { fields.new ≡ byte_fields }
{
    for v in 0..256 {
        put_right(fields, 4 * v, v);
    }
}

// Puts a text from `at` on.
pub(crate) fn put_text(out: &mut [u8], at: usize, text: &[u8])
    requires { at + length text.now ≤ length out.old }
    ensures { out.new ≡ sets out.old at text.now }
{
    out[at..at + text.len()].copy_from_slice(text);
}

// The field of a node's number, from `fields`.
pub(crate) fn put_node(out: &mut [u8], at: usize, fields: &[u8], node: Node)
    requires { (at + 4 ≤ length out.old) × (fields.now ≡ byte_fields) }
    ensures { out.new ≡ sets out.old at (field node.0) }
{
    let from = 4 * usize::from(node.0);
    put_text(out, at, &fields[from..from + 4]);
}

// The field of how many there are.
pub(crate) fn put_count(out: &mut [u8], at: usize, count: usize)
    requires { (count < 10000) × (at + 4 ≤ length out.old) }
    ensures { out.new ≡ sets out.old at (field count) }
{
    put_right(out, at, count);
}

// Puts so many blanks from `at` on.
pub(crate) fn put_blanks(out: &mut [u8], at: usize, count: usize)
    requires { at + count ≤ length out.old }
    ensures { out.new ≡ sets out.old at (blanks count) }
{
    out[at..at + count].fill(b' ');
}
