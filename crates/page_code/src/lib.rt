// The cabinet page: one line a record, and what is kept.
#![tactic(auto)]

ghost use Rattle.std.specs.Prelude.{◌≡◌, ◌+◌, ◌*◌, ◌≤◌, length};
ghost use Rattle.std.proofs.lemmas.List.Edits.{sets};
ghost use Rattle.refusal.specs.Checked.{WritingDone};
ghost use Rattle.page.specs.Page.{layer_of, check_page};
ghost use Rattle.page.specs.Asked.{PageAsked, lines_at, page_from};

use layers::LayerHead;
use packing::Record;
use placement::PlacementHead;
use refusal::Refusal;

// The layer of a record: the one among whose rows it is.
fn layer_of(layers: [LayerHead; 5], number: Record) -> usize
    requires { length layers ≡ 5 }
    ensures { (result ≡ layer_of 0 layers number.0) × (result ≤ 5) }
{
    let mut left = number.0;
    for (x, layer) in layers.iter().enumerate() {
        if left < layer.size {
            return x;
        }
        left -= layer.size;
    }
    layers.len()
}

// The lines of the b records whose rows are in the bytes, at the start of `out`.
fn write_lines(bytes: &[u8], head: PlacementHead, layers: [LayerHead; 5], out: &mut [u8])
    requires { PageAsked bytes.now head layers × (27 * head.b ≤ length out.old) }
    ensures { out.new ≡ sets out.old 0 (lines_at bytes.now head.first head.r head.b layers) }
{
    let first = head.first;
    let r = head.r;
    let b = head.b;
    let mut fields = [0u8; 1024];
    page_lines::put_fields(&mut fields);
    for i in 0..b {
        let number = Record(i);
        let layer = layer_of(layers, number);
        let from = first + i * r;
        page_lines::put_record_line(out, 27 * i, number, layer, &fields, &bytes[from..from + r]);
    }
}

// The page of an accepted placement, where the output has room for it.
fn write_accepted(
    bytes: &[u8],
    head: PlacementHead,
    layers: [LayerHead; 5],
    out: &mut [u8],
) -> Result<usize, Refusal>
    requires { PageAsked bytes.now head layers }
    ensures { WritingDone (page_from bytes.now head layers (length out.old)) out.old out.new result }
{
    let b = head.b;
    let figure = head.figure;
    let needed = 27 * (b + 1);
    if out.len() < needed {
        return Err(Refusal::ShortOutput(needed));
    }
    write_lines(bytes, head, layers, out);
    page_lines::put_last_line(out, 27 * b, figure, b);
    Ok(needed)
}

// Checks a placement and puts its page at the start of `out`; answers the bytes written, 27 × (b+1). Refuses as
// `check_placement` does, then 11 where `out` is shorter.
//
// Every line has 26 characters and a newline, and names its record, its layer and its nodes: `m-page` in `promises`.
pub fn page(bytes: &[u8], out: &mut [u8]) -> Result<usize, Refusal>
    ensures { WritingDone (check_page bytes.now (length out.old)) out.old out.new result }
{
    let check = placement_code::check_placement(bytes);
    let head = check.answer?;
    write_accepted(bytes, head, check.layers, out)
}
