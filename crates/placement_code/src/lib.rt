// Checking placements.
#![tactic(auto)]

mod fed;
mod records;

ghost use Rattle.std.specs.Prelude.{◌≡◌};
ghost use Rattle.refusal.specs.Checked.{refused};
ghost use Rattle.placement.specs.Placement.{read_placement};
ghost use Rattle.placement.specs.Answers.{placement_checked};
ghost use Rattle.placement_code.specs.Loaded.{Handed};

use layers::{Dark, FileKind, LayerHead, LayerLimits};
use placement::{FeederTable, Order, PlacementCheck, PlacementHead};
use refusal::Refusal;

// What checking a placement gives, with the load of layer 0 beside an accepted one without feeders.
#[derive(Clone, Copy)]
pub struct LoadedCheck {
    pub check: PlacementCheck,
    pub load: usize,
}

// The answer that refuses.
fn refuse(e: Refusal) -> LoadedCheck
    ensures { result.check ≡ placement_checked (refused e) }
{
    LoadedCheck {
        check: PlacementCheck {
            answer: Err(e),
            layers: [LayerHead { bound: 0, size: 0 }; 5],
            dark: Dark {
                count: 0,
                nodes: [0; 255],
            },
            feeders: FeederTable {
                number: 0,
                each: [0; 255],
            },
        },
        load: 0,
    }
}

// Checks a placement as `check_placement` does, and hands on the load that the packing test of layer 0 has counted.
pub fn check_loaded(bytes: &[u8]) -> LoadedCheck
    ensures check_value { result.check ≡ placement_checked (read_placement bytes.now) }
    ensures handed { Handed bytes.now result.check result.load }
{
    let head = match layers_base::read_base(bytes, FileKind::Placement) {
        Ok(head) => head,
        Err(e) => return refuse(e),
    };
    let kind = head.kind;
    let base = head.base;
    let read = match terms_code::read_terms(bytes, base, head.next) {
        Ok(read) => read,
        Err(e) => return refuse(e),
    };
    let t = read.terms;
    let s = t.s;
    let b = t.b;
    let limits = LayerLimits {
        lo: 0,
        hi: 16_777_216,
        full: true,
    };
    let numbers = match layers_reader::read_layers(bytes, read.next, s, b, limits) {
        Ok(numbers) => numbers,
        Err(e) => return refuse(e),
    };
    let layers = numbers.heads;
    let first = numbers.next;
    let loaded = records::check_records(bytes, first, kind, base, t, layers);
    let feeders = match loaded.records {
        Ok(feeders) => feeders,
        Err(e) => return refuse(e),
    };
    let order = Order { s, k: t.k, b };
    let rule = placement_figure::rule_of(kind);
    if t.figure != placement_figure::figure_of(rule, order, layers) {
        return refuse(Refusal::WrongFigure(t.place));
    }
    let dark = base.dark;
    LoadedCheck {
        check: PlacementCheck {
            answer: Ok(PlacementHead {
                kind,
                n: base.n,
                r: base.r,
                s,
                k: t.k,
                b,
                figure: t.figure,
                first,
            }),
            layers,
            dark,
            feeders,
        },
        load: loaded.load,
    }
}

// Checks a placement: its kind, n, r and the nodes out of service, then s, k, b and F, the layers' numbers, the rows, in kind 6 the
// feeders after them, and the figure by the kind's rule.
//
// Accepted exactly where the bytes are the file of a placement with the documents' limits, rows in order that name no node out of
// service and have no two nodes on one feeder, the packing of every layer and the formula's figure: `placement-accepted-iff` in
// `placement`. The figure of an accepted placement holds whichever k of its n nodes fail, `survivors`, and in kind 6 whichever k of its
// feeders, `survivors-at-most`.
pub fn check_placement(bytes: &[u8]) -> PlacementCheck
    ensures { result ≡ placement_checked (read_placement bytes.now) }
{
    let loaded = check_loaded(bytes);
    loaded.check
}
