// What checking a pack answers, as numbers.
ghost use Rattle.std.specs.Prelude.{◌≡◌, ◌≤◌, [], ◌∷◌, ◌++◌, length, take};
ghost use Rattle.refusal.specs.Refusals.{result as result_of};
ghost use Rattle.layers.specs.Layers.{head_numbers};
ghost use Rattle.pack.specs.Answers.{pack_outcome};
ghost use Rattle.exports.specs.Exports.{Put};

use layers::LayerHead;
use pack::{PackCheck, PackHead};

// The numbers before the list: 0, n, r, the first block's place, mu and m of five layers, and how many nodes the list has.
fn numbers_of(head: PackHead, l: [LayerHead; 5], count: usize) -> [usize; 15]
    ensures { result ≡ 0 ∷ head.n ∷ head.r ∷ head.first ∷ (head_numbers l ++ (count ∷ [])) }
{
    let l0 = l[0];
    let l1 = l[1];
    let l2 = l[2];
    let l3 = l[3];
    let l4 = l[4];
    [
        0, head.n, head.r, head.first, l0.bound, l0.size, l1.bound, l1.size, l2.bound, l2.size,
        l3.bound, l3.size, l4.bound, l4.size, count,
    ]
}

// Puts what an accepted pack says; answers 0.
fn accepted(
    head: PackHead,
    l: [LayerHead; 5],
    count: usize,
    nodes: [usize; 255],
    answer: &mut [usize],
) -> usize
    requires { (count ≤ 255) × (270 ≤ length answer.old) }
    ensures { Put (result_of (head.n ∷ head.r ∷ head.first ∷ (head_numbers l ++ (count ∷ take count nodes))))
        answer.old answer.new result }
{
    let numbers = numbers_of(head, l, count);
    export_answers::put_two(answer, &numbers, &nodes[0..count]);
    0
}

// Puts what checking a pack answers.
pub(crate) fn tell_pack(check: PackCheck, answer: &mut [usize]) -> usize
    requires { (check.dark.count ≤ 255) × (270 ≤ length answer.old) }
    ensures { Put (pack_outcome check) answer.old answer.new result }
{
    let says = check.answer;
    let l = check.layers;
    let dark = check.dark;
    let count = dark.count;
    let nodes = dark.nodes;
    match says {
        Ok(head) => accepted(head, l, count, nodes, answer),
        Err(e) => export_answers::refused(e, answer),
    }
}
