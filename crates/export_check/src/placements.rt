// What checking a placement answers, as numbers.
ghost use Rattle.std.specs.Prelude.{◌≡◌, ◌+◌, ◌≤◌, [], ◌∷◌, ◌++◌, length, take};
ghost use Rattle.lists.specs.Lists.{over_start};
ghost use Rattle.refusal.specs.Refusals.{result as result_of};
ghost use Rattle.placement.specs.Answers.{head_values, table_values, placement_outcome};
ghost use Rattle.exports.specs.Exports.{Put};
ghost use Rattle.export_check.specs.Fits.{CheckFits};

use layers::LayerHead;
use placement::{FeederTable, PlacementCheck, PlacementHead};

// The numbers before the lists: 0, the eight of the head, lambda and c of five layers, and how many nodes are out of service.
fn numbers_of(head: PlacementHead, l: [LayerHead; 5], count: usize) -> [usize; 20]
    ensures { result ≡ 0 ∷ head_values head l (count ∷ []) [] }
{
    let l0 = l[0];
    let l1 = l[1];
    let l2 = l[2];
    let l3 = l[3];
    let l4 = l[4];
    [
        0,
        head.kind,
        head.n,
        head.r,
        head.s,
        head.k,
        head.b,
        head.figure,
        head.first,
        l0.bound,
        l0.size,
        l1.bound,
        l1.size,
        l2.bound,
        l2.size,
        l3.bound,
        l3.size,
        l4.bound,
        l4.size,
        count,
    ]
}

// Puts the numbers, the nodes out of service, g and the feeder of each of the first n nodes.
fn put_fed(
    numbers: &[usize],
    nodes: &[usize],
    number: usize,
    each: [u8; 255],
    n: usize,
    answer: &mut [usize],
)
    requires { (n ≤ 255) × (length numbers.now + length nodes.now + 1 + n ≤ length answer.old) }
    ensures { answer.new ≡ over_start ((numbers.now ++ (nodes.now ++ (number ∷ []))) ++ take n each)
        answer.old }
{
    export_answers::put_three(answer, numbers, nodes, &[number]);
    let at = numbers.len() + nodes.len() + 1;
    export_answers::put_bytes(&mut answer[at..], &each[0..n]);
}

// Puts what an accepted placement says; answers 0.
fn accepted(
    head: PlacementHead,
    l: [LayerHead; 5],
    count: usize,
    nodes: [usize; 255],
    table: FeederTable,
    answer: &mut [usize],
) -> usize
    requires { (count ≤ 255) × (head.n ≤ 255) × (531 ≤ length answer.old) }
    ensures { Put (result_of (head_values head l (count ∷ take count nodes) (table_values head.n table)))
        answer.old answer.new result }
{
    let numbers = numbers_of(head, l, count);
    let number = table.number;
    if number == 0 {
        export_answers::put_two(answer, &numbers, &nodes[0..count]);
        return 0;
    }
    let each = table.each;
    let n = head.n;
    put_fed(&numbers, &nodes[0..count], number, each, n, answer);
    0
}

// Puts what checking a placement answers.
pub(crate) fn tell_placement(check: PlacementCheck, answer: &mut [usize]) -> usize
    requires { CheckFits check × (531 ≤ length answer.old) }
    ensures { Put (placement_outcome check) answer.old answer.new result }
{
    let says = check.answer;
    let l = check.layers;
    let dark = check.dark;
    let count = dark.count;
    let nodes = dark.nodes;
    let table = check.feeders;
    match says {
        Ok(head) => accepted(head, l, count, nodes, table, answer),
        Err(e) => export_answers::refused(e, answer),
    }
}
