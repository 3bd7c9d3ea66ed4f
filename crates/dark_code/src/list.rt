// Reading the list of nodes out of service.
ghost use Rattle.std.specs.Prelude.{◌≡◌, ◌≤◌};
ghost use Rattle.layers.specs.Layers.{listed, read_nodes, read_dark};
ghost use Rattle.layers.specs.Answers.{dark_read};

use layers::{Dark, DarkRead};
use refusal::Refusal;

// Whether a file of this kind has the list.
fn is_listed(kind: usize) -> bool
    ensures { result ≡ listed kind }
{
    matches!(kind, 4 | 5 | 6)
}

// The numbers of `count` nodes from `at` on, strictly ascending and below n, with the place after them, or refusal 1, 2 or 4.
fn read_nodes(bytes: &[u8], at: usize, n: usize, count: usize) -> Result<DarkRead, Refusal>
    requires { (1 ≤ n) × (n ≤ 255) × (count ≤ 255) }
    ensures { result ≡ dark_read (read_nodes n count 0 bytes.now at) }
{
    let mut nodes = [0usize; 255];
    let mut next = at;
    let mut least: usize = 0;
    for i in 0..count {
        let node = number_code::read_within(bytes, next, least, n - 1)?;
        nodes[i] = node.value;
        next = node.next;
        least = node.value + 1;
    }
    Ok(DarkRead {
        dark: Dark { count, nodes },
        next,
    })
}

// The nodes out of service in a file of this kind, whose list would start at `at`, with the place after it; or refusal 1, 2 or
// 4. A file of a kind that has no list has none.
pub fn read_dark(bytes: &[u8], at: usize, kind: usize, n: usize) -> Result<DarkRead, Refusal>
    requires { (1 ≤ n) × (n ≤ 255) }
    ensures { result ≡ dark_read (read_dark kind n bytes.now at) }
{
    if !is_listed(kind) {
        return Ok(DarkRead {
            dark: Dark {
                count: 0,
                nodes: [0; 255],
            },
            next: at,
        });
    }
    let count = number_code::read_within(bytes, at, 0, n)?;
    read_nodes(bytes, count.next, n, count.value)
}
