// The joined list of nodes out of service.
ghost use Rattle.std.specs.Prelude.{◌≡◌, ◌+◌, ◌≤◌, ◌<◌, ◌++◌, map, take};
ghost use Rattle.lists.specs.Lists.{All};
ghost use Rattle.join.specs.Estate.{ListsFit, ListJoined};

use layers::Dark;

// The list whose first `at` nodes are followed by the first `count` of these nodes, each `before` more.
fn add_nodes(
    list: [usize; 255],
    at: usize,
    nodes: [usize; 255],
    count: usize,
    before: usize,
) -> [usize; 255]
    requires count_bound { at + count ≤ 255 }
    requires before_bound { before ≤ 255 }
    requires all { All (λ v. v < 256) (take count nodes) }
    ensures { take (at + count) result ≡ take at list ++ map (λ v. before + v) (take count nodes) }
{
    let mut whole = list;
    for i in 0..count {
        whole[at + i] = before + nodes[i];
    }
    whole
}

// The three packs' lists joined, where so many nodes come before those of the second and of the third.
pub(crate) fn joint_list(a: Dark, b: Dark, c: Dark, second: usize, third: usize) -> Dark
    requires { ListsFit a b c second third }
    ensures { ListJoined a b c second third result }
{
    let first_nodes = a.nodes;
    let second_nodes = b.nodes;
    let third_nodes = c.nodes;
    let two = a.count + b.count;
    let three = two + c.count;
    let with_second = add_nodes(first_nodes, a.count, second_nodes, b.count, second);
    let nodes = add_nodes(with_second, two, third_nodes, c.count, third);
    Dark {
        count: three,
        nodes,
    }
}
