// The mean load of a node.
#![tactic(auto)]

ghost use Rattle.std.specs.Prelude.{◌≡◌, ◌≤◌};
ghost use Rattle.report.specs.Load.{mean};

// b × r / n to the nearest whole, a half going to the even one.
pub fn mean_load(b: usize, r: usize, n: usize) -> usize
    requires { (b ≤ 4_096) × (r ≤ 5) × (1 ≤ n) × (n ≤ 255) }
    ensures { result ≡ mean b r n }
{
    let total = b * r;
    let whole = total / n;
    let twice = 2 * (total % n);
    if twice < n {
        return whole;
    }
    if n < twice {
        return whole + 1;
    }
    whole + whole % 2
}
