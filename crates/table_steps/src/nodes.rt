// The nodes that a line names.
ghost use Rattle.std.specs.Prelude.{◌≡◌};
ghost use Rattle.packing.specs.Rows.{is_in_order};

// Whether the numbers are strictly ascending and all below n.
pub fn in_order(numbers: &[usize], n: usize) -> bool
    ensures { result ≡ is_in_order n numbers.now }
{
    let mut least: usize = 0;
    for &v in numbers {
        if v < least {
            return false;
        }
        if n <= v {
            return false;
        }
        least = v + 1;
    }
    true
}
