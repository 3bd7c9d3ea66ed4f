// How many rows layers have.
ghost use Rattle.std.specs.Prelude.{◌≡◌, ◌≤◌, ◌<◌, take, get_or};
ghost use Rattle.layers.specs.Layers.{sizes};
ghost use Rattle.layers.specs.Answers.{no_head};

use layers::LayerHead;

// How many rows the first layers have.
pub fn count_rows(layers: usize, heads: [LayerHead; 5]) -> usize
    requires { (layers ≤ 5) × (sizes (take layers heads) ≤ 4096) }
    ensures { result ≡ sizes (take layers heads) }
{
    let mut sum: usize = 0;
    for x in 0..layers {
        sum += heads[x].size;
    }
    sum
}

// How many rows layer 0 has, none where there is no layer.
pub fn first_size(layers: usize, heads: [LayerHead; 5]) -> usize
    ensures { (0 < layers → result ≡ (get_or heads 0 no_head).size) × (result ≤ sizes (take layers heads)) }
{
    if layers == 0 {
        return 0;
    }
    heads[0].size
}
