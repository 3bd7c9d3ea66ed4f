// The joined mu's and m's of each layer.
#![tactic(auto)]

ghost use Rattle.std.specs.Prelude.{◌≡◌, ◌≤◌, ◌<◌, min, [], ◌∷◌};
ghost use Rattle.join.specs.Lcm.{lcm};
ghost use Rattle.join.specs.Join.{with_mu};
ghost use Rattle.join.specs.Estate.{joint_size, capped_head, capped_heads, joint_heads, HeadFits, HeadsFit};

use join::JointHeads;
use layers::LayerHead;

// The least common multiple, or 4,097 where it is above 4,096: the first multiple of the larger that is one of the smaller.
fn common_multiple(a: usize, b: usize) -> usize
    requires le_a { 1 ≤ a }
    requires le_b { 1 ≤ b }
    requires a_bound { a ≤ 4_097 }
    requires b_bound { b ≤ 4_097 }
    ensures { result ≡ min (lcm a b) 4_097 }
{
    let step = a.max(b);
    let other = a.min(b);
    for m in (step..4_097).step_by(step) {
        if m % other == 0 {
            return m;
        }
    }
    4_097
}

// The multiple of `rest` and, where the layer has blocks, of its mu.
fn with_mu(head: LayerHead, rest: usize) -> usize
    requires head_fits { HeadFits head }
    requires le_rest { 1 ≤ rest }
    requires rest_bound { rest ≤ 4_097 }
    ensures { result ≡ min (with_mu head.size head.bound rest) 4_097 }
{
    let size = head.size;
    let mu = head.bound;
    if size == 0 {
        return rest;
    }
    common_multiple(mu, rest)
}

// How many rows a layer with these numbers brings into one with the joined mu.
fn part_rows(head: LayerHead, mu: usize) -> usize
    requires head_fits { HeadFits head }
    requires mu_bound { mu ≤ 4_097 }
    ensures { result ≡ joint_size mu (head ∷ []) }
{
    let size = head.size;
    let bound = head.bound;
    if size == 0 {
        return 0;
    }
    mu / bound * size
}

// The joined mu and m of a layer.
fn joint_head(a: LayerHead, b: LayerHead, c: LayerHead) -> LayerHead
    requires head_fits { HeadFits a }
    requires head_fits_2 { HeadFits b }
    requires head_fits_3 { HeadFits c }
    ensures { result ≡ capped_head (a ∷ b ∷ c ∷ []) }
{
    let last = with_mu(c, 1);
    let rest = with_mu(b, last);
    let mu = with_mu(a, rest);
    let size = part_rows(a, mu) + part_rows(b, mu) + part_rows(c, mu);
    LayerHead { bound: mu, size }
}

// The joined mu and m of each layer below r.
pub fn joint_heads(r: usize, a: [LayerHead; 5], b: [LayerHead; 5], c: [LayerHead; 5]) -> JointHeads
    requires r_bound { r ≤ 5 }
    requires heads_fit { HeadsFit a }
    requires heads_fit_2 { HeadsFit b }
    requires heads_fit_3 { HeadsFit c }
    ensures { result ≡ joint_heads (capped_heads r a b c) }
{
    let mut heads = [LayerHead { bound: 0, size: 0 }; 5];
    let mut most: usize = 0;
    let mut rows: usize = 0;
    for x in 0..r {
        let head = joint_head(a[x], b[x], c[x]);
        most = most.max(head.bound);
        rows += head.size;
        heads[x] = head;
    }
    JointHeads { most, rows, heads }
}
