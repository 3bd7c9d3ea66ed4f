// The layers of a table, put into a slice that a caller lends.
ghost use Rattle.std.specs.Prelude.{◌+◌, ◌*◌, ◌≤◌, length, take};
ghost use mathlib.Core.List.{flatten, map};
ghost use Rattle.layers.specs.Layers.{layers_at, sizes};
ghost use Rattle.report_lines.specs.Put.{Put};
ghost use Rattle.table.specs.Printing.{layer_text};

use layers::LayerHead;

// Puts the layers below r at `at`: for each its mu, then its blocks. Answers the place after them.
pub(crate) fn put_layers(
    out: &mut [u8],
    at: usize,
    rows: &[u8],
    heads: [LayerHead; 5],
    r: usize,
) -> usize
    requires r_bound { r ≤ 5 }
    requires r_in_bounds { sizes (take r heads) * r ≤ length rows.now }
    requires rows_in_bounds { at + length (flatten (map layer_text (layers_at r (take r heads) rows.now))) + 128 ≤ length out.old }
    ensures { Put (flatten (map layer_text (layers_at r (take r heads) rows.now))) out.old at result out.new }
{
    let mut place = at;
    let mut from: usize = 0;
    for head in &heads[0..r] {
        let mu = head.bound;
        let m = head.size;
        let numbers = [mu];
        let next = line_printer::put_line(out, place, b"mu", &numbers);
        place = line_printer::put_rows(out, next, &rows[from..], m, r);
        from += m * r;
    }
    place
}
