// The line of a record, and the last line.
ghost use Rattle.std.specs.Prelude.{◌≡◌, ◌+◌, ◌≤◌, ◌<◌, length};
ghost use Rattle.std.proofs.lemmas.List.Edits.{sets};
ghost use Rattle.lists.specs.Lists.{All};
ghost use Rattle.page_lines.specs.ByteFields.{byte_fields};
ghost use Rattle.page.specs.Page.{node_field, node_fields, record_line, last_line};

use crate::fields::{put_blanks, put_count, put_node, put_record, put_text};
use packing::{Node, Record};

// Field j of a row: its node's number, or blank past the last.
fn put_node_field(out: &mut [u8], at: usize, fields: &[u8], row: &[u8], j: usize)
    requires { (at + 4 ≤ length out.old) × (fields.now ≡ byte_fields) }
    ensures { out.new ≡ sets out.old at (node_field row.now j) }
{
    if j < row.len() {
        let node = Node(row[j]);
        put_node(out, at, fields, node);
        return;
    }
    put_blanks(out, at, 4);
}

// The five fields of a row.
fn put_nodes(out: &mut [u8], at: usize, fields: &[u8], row: &[u8])
    requires { (at + 20 ≤ length out.old) × All (λ v. v < 10000) row.now × (fields.now ≡ byte_fields) }
    ensures { out.new ≡ sets out.old at (node_fields row.now) }
{
    for j in 0..5 {
        put_node_field(out, at + 4 * j, fields, row, j);
    }
}

// Puts the line of a record from `at` on: its number, its layer and its nodes, whose fields are in `fields`.
pub fn put_record_line(
    out: &mut [u8],
    at: usize,
    number: Record,
    layer: usize,
    fields: &[u8],
    row: &[u8],
)
    requires { (number.0 < 10000) × (layer ≤ 9) × (at + 27 ≤ length out.old) × All (λ v. v < 10000) row.now × (fields.now ≡ byte_fields) }
    ensures { out.new ≡ sets out.old at (record_line number.0 layer row.now) }
{
    put_record(out, at, number);
    out[at + 4] = b' ';
    out[at + 5] = (48 + layer) as u8;
    put_nodes(out, at + 6, fields, row);
    out[at + 26] = b'\n';
}

// Puts the last line from `at` on: the figure and b.
pub fn put_last_line(out: &mut [u8], at: usize, figure: usize, b: usize)
    requires { (figure < 10000) × (b < 10000) × (at + 27 ≤ length out.old) }
    ensures { out.new ≡ sets out.old at (last_line figure b) }
{
    put_text(out, at, b"kept ");
    put_count(out, at + 5, figure);
    put_text(out, at + 9, b" of ");
    put_count(out, at + 13, b);
    put_blanks(out, at + 17, 9);
    out[at + 26] = b'\n';
}
