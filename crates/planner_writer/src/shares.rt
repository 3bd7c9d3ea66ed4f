// The two numbers of each layer of a split's placement.
ghost use Rattle.std.specs.Prelude.{◌≡◌, ◌+◌, ◌≤◌};
ghost use Rattle.layers.specs.Answers.{five_heads};
ghost use Rattle.split.specs.Splits.{copies_for, split_heads, counts_split};
ghost use Rattle.planner.specs.Writing.{SharesFit};

use layers::LayerHead;

// The least copies of m blocks that hold c records; none where there is no block.
pub fn copies_for(c: usize, m: usize) -> usize
    requires { c + m ≤ 65536 }
    ensures { result ≡ copies_for c m }
{
    if m == 0 {
        return 0;
    }
    (c + (m - 1)) / m
}

// lambda of each layer below s, its copies × mu, and its count; 0 and 0 from layer s on.
pub fn split_heads(layers: [LayerHead; 5], counts: [usize; 5], s: usize) -> [LayerHead; 5]
    requires { SharesFit layers s counts }
    ensures { result ≡ five_heads (split_heads layers s (counts_split layers counts)) }
{
    let mut heads = [LayerHead { bound: 0, size: 0 }; 5];
    for x in 0..s {
        let layer = layers[x];
        let c = counts[x];
        heads[x] = LayerHead {
            bound: copies_for(c, layer.size) * layer.bound,
            size: c,
        };
    }
    heads
}
