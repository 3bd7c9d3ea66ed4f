// Joining packs: checked in order, then joined layer by layer into one.
#![tactic(auto)]

ghost use Rattle.std.specs.Prelude.{◌≡◌, ◌≤◌, [], ◌∷◌, length, take, Err};
ghost use Rattle.pack.specs.Answers.{pack_checked};
ghost use Rattle.join.specs.Join.{join_packs, join as join_of};
ghost use Rattle.join.specs.Answers.{JoinDone};
ghost use Rattle.join.specs.Estate.{estate_packs, read_piece, refusal_of, EstateFits};

use join::{Estate, Piece};
use layers::{Dark, LayerHead};
use pack::{PackCheck, PackHead};
use refusal::Refusal;

// Checks a pack; where none is given, one with no node and no block, of this r.
fn check_piece(bytes: &[u8], given: bool, r: usize) -> PackCheck
    ensures { result ≡ pack_checked (read_piece given r bytes.now) }
{
    if given {
        return pack_code::check_pack(bytes);
    }
    let head = PackHead {
        n: 0,
        r,
        first: bytes.len(),
    };
    PackCheck {
        answer: Ok(head),
        layers: [LayerHead { bound: 0, size: 0 }; 5],
        dark: Dark {
            count: 0,
            nodes: [0; 255],
        },
    }
}

// Joins three packs of one r: refuses what passes the limits, then writes.
fn join_estate(
    first: &[u8],
    second: &[u8],
    third: &[u8],
    estate: Estate,
    out: &mut [u8],
) -> Result<usize, Refusal>
    requires { EstateFits estate first.now second.now third.now }
    ensures { JoinDone
        (join_packs (estate_packs estate first.now second.now third.now) (length out.old))
        out.old out.new result }
{
    let r = estate.r;
    let one = estate.a;
    let two = estate.b;
    let three = estate.c;
    let n = one.nodes + two.nodes + three.nodes;
    if 255 < n {
        return Err(Refusal::Unjoinable);
    }
    let one_layers = one.layers;
    let two_layers = two.layers;
    let three_layers = three.layers;
    let joint = join_mu::joint_heads(r, one_layers, two_layers, three_layers);
    if 4_096 < joint.most {
        return Err(Refusal::Unjoinable);
    }
    if 4_096 < joint.rows {
        return Err(Refusal::Unjoinable);
    }
    join_writer::write_joined(first, second, third, estate, joint, out)
}

// The refusal of a pack that was not accepted; the code asks it of no other.
fn refuse(answer: Result<PackHead, Refusal>) -> Result<usize, Refusal>
    ensures { result ≡ Err (refusal_of answer) }
{
    match answer {
        Err(e) => Err(e),
        Ok(_) => Err(Refusal::Unjoinable),
    }
}

// Joins the first one, two or three of these packs.
fn join_packs(
    packs: usize,
    first: &[u8],
    second: &[u8],
    third: &[u8],
    out: &mut [u8],
) -> Result<usize, Refusal>
    requires le_packs { 1 ≤ packs }
    requires packs_bound { packs ≤ 3 }
    ensures { JoinDone
        (join_of (take packs (first.now ∷ second.now ∷ third.now ∷ [])) (length out.old))
        out.old out.new result }
{
    let a = check_piece(first, true, 0);
    let a_answer = a.answer;
    let Ok(a_head) = a_answer else {
        return refuse(a_answer);
    };
    let r = a_head.r;
    let b = check_piece(second, 1 < packs, r);
    let b_answer = b.answer;
    let Ok(b_head) = b_answer else {
        return refuse(b_answer);
    };
    let c = check_piece(third, 2 < packs, r);
    let c_answer = c.answer;
    let Ok(c_head) = c_answer else {
        return refuse(c_answer);
    };
    if b_head.r != r {
        return Err(Refusal::Unjoinable);
    }
    if c_head.r != r {
        return Err(Refusal::Unjoinable);
    }
    let a_layers = a.layers;
    let b_layers = b.layers;
    let c_layers = c.layers;
    let a_dark = a.dark;
    let b_dark = b.dark;
    let c_dark = c.dark;
    let estate = Estate {
        r,
        a: Piece {
            nodes: a_head.n,
            place: a_head.first,
            layers: a_layers,
            dark: a_dark,
        },
        b: Piece {
            nodes: b_head.n,
            place: b_head.first,
            layers: b_layers,
            dark: b_dark,
        },
        c: Piece {
            nodes: c_head.n,
            place: c_head.first,
            layers: c_layers,
            dark: c_dark,
        },
    };
    join_estate(first, second, third, estate, out)
}

// Joins one pack: an empty layer's mu becomes 1, and each number has its shortest form.
pub fn join_one(first: &[u8], out: &mut [u8]) -> Result<usize, Refusal>
    ensures { JoinDone (join_of (first.now ∷ []) (length out.old))
        out.old out.new result }
{
    join_packs(1, first, first, first, out)
}

// Joins two packs: the second's nodes come after the first's.
pub fn join_two(first: &[u8], second: &[u8], out: &mut [u8]) -> Result<usize, Refusal>
    ensures { JoinDone (join_of (first.now ∷ second.now ∷ []) (length out.old))
        out.old out.new result }
{
    join_packs(2, first, second, second, out)
}

// Joins three packs.
pub fn join_three(
    first: &[u8],
    second: &[u8],
    third: &[u8],
    out: &mut [u8],
) -> Result<usize, Refusal>
    ensures { JoinDone
        (join_of (first.now ∷ second.now ∷ third.now ∷ []) (length out.old))
        out.old out.new result }
{
    join_packs(3, first, second, third, out)
}
