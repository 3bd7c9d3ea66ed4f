// Checking packs.
#![tactic(auto)]

ghost use Rattle.std.specs.Prelude.{◌≡◌};
ghost use Rattle.refusal.specs.Checked.{refused};
ghost use Rattle.pack.specs.Pack.{read_pack};
ghost use Rattle.pack.specs.Answers.{pack_checked};

use layers::{Dark, FileKind, LayerHead, LayerLimits};
use pack::{PackCheck, PackHead};
use refusal::Refusal;

// The answer that refuses.
fn refuse(e: Refusal) -> PackCheck
    ensures { result ≡ pack_checked (refused e) }
{
    PackCheck {
        answer: Err(e),
        layers: [LayerHead { bound: 0, size: 0 }; 5],
        dark: Dark {
            count: 0,
            nodes: [0; 255],
        },
    }
}

// Checks a pack: n, r and the nodes out of service, the layers' numbers, then the blocks.
//
// Accepted exactly where the bytes are the file of a pack with document 01's limits, blocks in order that name no node out of service
// and the packing of every layer: `pack-accepted-iff` in `pack`.
pub fn check_pack(bytes: &[u8]) -> PackCheck
    ensures { result ≡ pack_checked (read_pack bytes.now) }
{
    let head = match layers_base::read_base(bytes, FileKind::Pack) {
        Ok(head) => head,
        Err(e) => return refuse(e),
    };
    let base = head.base;
    let n = base.n;
    let r = base.r;
    let limits = LayerLimits {
        lo: 1,
        hi: 4_096,
        full: false,
    };
    let numbers = match layers_reader::read_layers(bytes, head.next, r, 4_096, limits) {
        Ok(numbers) => numbers,
        Err(e) => return refuse(e),
    };
    let layers = numbers.heads;
    let first = numbers.next;
    let rows = layers_code::check_rows(bytes, first, base, r, layers);
    let rows_verdict = rows.verdict;
    if let Err(e) = rows_verdict {
        return refuse(e);
    }
    let dark = base.dark;
    PackCheck {
        answer: Ok(PackHead { n, r, first }),
        layers,
        dark,
    }
}
