// Reading the number of feeders and the feeder of each node.
ghost use Rattle.std.specs.Prelude.{◌≡◌, ◌≤◌, ◌<◌};
ghost use Rattle.std.proofs.Math.Option.{some};
ghost use Rattle.refusal.specs.Checked.{map_accepted};
ghost use Rattle.placement.specs.Feeders.{read_each, read_numbered};
ghost use Rattle.placement.specs.Answers.{feeders_read};

use placement::{FeederTable, FeedersRead};
use refusal::Refusal;

// The feeders, below g, of `count` nodes from `at` on, with g before them and the place after them, or refusal 1, 2 or 4.
fn read_each(bytes: &[u8], at: usize, g: usize, count: usize) -> Result<FeedersRead, Refusal>
    requires { (1 ≤ g) × (g ≤ 255) × (count ≤ 255) }
    ensures { result
        ≡ feeders_read
        (map_accepted (λ each. record { feeders = some (record { number = g; each = each.nodes }); next = each.next })
        (read_each g count bytes.now at)) }
{
    let mut each = [0u8; 255];
    let mut next = at;
    for i in 0..count {
        let feeder = number_code::read_within(bytes, next, 0, g - 1)?;
        each[i] = feeder.value as u8;
        next = feeder.next;
    }
    Ok(FeedersRead {
        table: FeederTable { number: g, each },
        next,
    })
}

// The number g of feeders, above k, at least r and at most n, from `at` on, and a feeder below g for each of n nodes, with the
// place after them; or refusal 1, 2 or 4.
pub fn read_feeders(
    bytes: &[u8],
    at: usize,
    n: usize,
    r: usize,
    k: usize,
) -> Result<FeedersRead, Refusal>
    requires { (k < n) × (r ≤ n) × (n ≤ 255) }
    ensures { result ≡ feeders_read (read_numbered n r k bytes.now at) }
{
    let least = (k + 1).max(r);
    let g = number_code::read_within(bytes, at, least, n)?;
    read_each(bytes, g.next, g.value, n)
}
