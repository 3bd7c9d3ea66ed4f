// How many sets of nodes there are, as far as it matters.
ghost use Rattle.std.specs.Prelude.{◌≡◌, ◌≤◌};
ghost use Rattle.worst.specs.Worst.{few_sets};

// The most sets, times the records, that are gone through.
const MOST_SETS: usize = 16_777_216;

// Whether C(n,k) × b is at most 16,777,216. C(n,k) is a product for the smaller of k and n-k, which never falls: it ends where it
// passes the limit.
pub(crate) fn few_sets(n: usize, k: usize, b: usize) -> bool
    requires { (k ≤ n) × (n ≤ 255) × (1 ≤ b) × (b ≤ 4_096) }
    ensures { result ≡ few_sets n k b }
{
    let end = k.min(n - k);
    let mut sets: usize = 1;
    for i in 0..end {
        sets = sets * (n - i) / (i + 1);
        if sets > MOST_SETS {
            return false;
        }
    }
    sets * b <= MOST_SETS
}
