// Reading numbers within limits, and the refusal of a number that was not read.
ghost use Rattle.std.specs.Prelude.{◌≡◌};
ghost use Rattle.number.specs.Numbers.{read_within};
ghost use Rattle.number.specs.Answers.{number_read, refusal_of};

use number::Reading;
use refusal::Refusal;

// The number that starts at `at`, if it is `lo` to `hi`, with the place after it, or refusal 1, 2 or 4.
pub fn read_within(bytes: &[u8], at: usize, lo: usize, hi: usize) -> Result<Reading, Refusal>
    ensures { result ≡ number_read (read_within lo hi bytes.now at) }
{
    let number = crate::reader::read_number(bytes, at)?;
    let v = number.value;
    if v < lo {
        return Err(Refusal::OutsideLimits(at));
    }
    if hi < v {
        return Err(Refusal::OutsideLimits(at));
    }
    Ok(number)
}

// The refusal of a number that was not read. One that was read has none: the end at its next place stands for it.
pub fn refusal_of(read: Result<Reading, Refusal>) -> Refusal
    ensures { result ≡ refusal_of read }
{
    match read {
        Ok(number) => Refusal::Ended(number.next),
        Err(e) => e,
    }
}
