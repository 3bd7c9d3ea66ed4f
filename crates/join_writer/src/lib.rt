// Writing the joined pack: its head, then the joined layers' rows.
#![tactic(auto)]

mod head;
mod list;
mod rows;

ghost use Rattle.std.specs.Prelude.{length};
ghost use Rattle.join.specs.Join.{joined_pack, write_joined};
ghost use Rattle.join.specs.Answers.{JoinDone};
ghost use Rattle.join.specs.Estate.{estate_packs, JointFits};

use join::{Estate, JointHeads};
use layers::Base;
use refusal::Refusal;

// Writes the joined pack with these mu's and m's to the start of `out`, or refuses an output that is shorter.
pub fn write_joined(
    first: &[u8],
    second: &[u8],
    third: &[u8],
    estate: Estate,
    joint: JointHeads,
    out: &mut [u8],
) -> Result<usize, Refusal>
    requires { JointFits estate joint first.now second.now third.now }
    ensures { JoinDone
        (write_joined (joined_pack (estate_packs estate first.now second.now third.now)) (length out.old))
        out.old out.new result }
{
    let r = estate.r;
    let one = estate.a;
    let two = estate.b;
    let three = estate.c;
    let before_second = one.nodes;
    let before_third = before_second + two.nodes;
    let n = before_third + three.nodes;
    let heads = joint.heads;
    let rows = joint.rows;
    let one_dark = one.dark;
    let two_dark = two.dark;
    let three_dark = three.dark;
    let dark = crate::list::joint_list(one_dark, two_dark, three_dark, before_second, before_third);
    let mut head = [0u8; 448];
    let at = crate::head::write_head(&mut head, Base { n, r, dark }, heads);
    let length = at + rows * r;
    if out.len() < length {
        return Err(Refusal::ShortOutput(length));
    }
    rows_code::copy_bytes(out, &head[0..at]);
    crate::rows::write_layers(&mut out[at..], first, second, third, estate, heads);
    Ok(length)
}
