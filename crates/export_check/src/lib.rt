// Checking packs and placements, for C and Rust: a slice is a pointer and a length, the answer's numbers are put into the last one.
#![tactic(auto)]

mod packs;
mod placements;

ghost use Rattle.pack.specs.Pack.{read_pack};
ghost use Rattle.pack.specs.Answers.{pack_checked, pack_outcome};
ghost use Rattle.placement.specs.Placement.{read_placement};
ghost use Rattle.placement.specs.Answers.{placement_checked, placement_outcome};
ghost use Rattle.exports.specs.Exports.{Told, fits};

use exports::BAD_LENGTH;

// Checks a pack: `pack_code::check_pack`. The answer has up to 270 numbers: 0, n, r, the first block's place, mu and m of five
// layers, how many nodes are out of service, and these.
pub fn musseltwig_check_pack(pack: &[u8], answer: &mut [usize]) -> usize
    ensures { Told (fits 270 answer.old) (pack_outcome (pack_checked (read_pack pack.now)))
        answer.old answer.new result }
{
    if answer.len() < 270 {
        return BAD_LENGTH;
    }
    let check = pack_code::check_pack(pack);
    crate::packs::tell_pack(check, answer)
}

// Checks a placement: `placement_code::check_placement`. The answer has up to 531 numbers: 0, the kind, n, r, s, k, b, F, the first
// row's place, lambda and c of five layers, how many nodes are out of service, and these; in kind 6 then g and each node's feeder.
pub fn musseltwig_check_placement(placement: &[u8], answer: &mut [usize]) -> usize
    ensures { Told (fits 531 answer.old) (placement_outcome (placement_checked (read_placement placement.now)))
        answer.old answer.new result }
{
    if answer.len() < 531 {
        return BAD_LENGTH;
    }
    let check = placement_code::check_placement(placement);
    crate::placements::tell_placement(check, answer)
}
