// Writing numbers one after another.
ghost use Rattle.std.specs.Prelude.{◌≡◌, ◌+◌, ◌≤◌, ◌++◌, length, take, drop};
ghost use Rattle.lists.specs.Lists.{All, over_start};
ghost use Rattle.number.specs.Numbers.{largest_number, number_bytes, forms_of};

// Writes `v` at place `at`. Returns the place after it.
fn put_number(out: &mut [u8], at: usize, v: usize) -> usize
    requires v_le_largest_number { v ≤ largest_number }
    requires v_in_bounds { at + length (number_bytes v) ≤ length out.old }
    ensures { (result ≡ at + length (number_bytes v))
        × (out.new ≡ take at out.old ++ over_start (number_bytes v) (drop at out.old)) }
{
    let written = crate::writer::write_number(&mut out[at..], v);
    let Ok(length) = written else {
        return at;
    };
    at + length
}

// Writes the numbers' shortest forms one after another to the start of `out`. Returns how many bytes they take.
#[tactic(auto, using(crate::proofs::numbers::Putting::numbers_none, crate::proofs::numbers::Putting::number_fits, crate::proofs::numbers::Putting::numbers_all))]
pub fn write_numbers(out: &mut [u8], numbers: &[usize]) -> usize
    requires all { All (λ v. v ≤ largest_number) numbers.now }
    requires numbers_in_bounds { length (forms_of numbers.now) ≤ length out.old }
    ensures { (result ≡ length (forms_of numbers.now))
        × (out.new ≡ over_start (forms_of numbers.now) out.old) }
{
    let mut at: usize = 0;
    for v in numbers {
        at = put_number(out, at, *v);
    }
    at
}
