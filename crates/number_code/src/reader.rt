// Reading numbers of one to four groups of seven bits.
ghost use Rattle.std.specs.Prelude.{◌≡◌};
ghost use Rattle.number.specs.Numbers.{read_number};
ghost use Rattle.number.specs.Answers.{number_read};

use number::Reading;
use refusal::Refusal;

// The number that starts at `at`, in any form of it, with the place after it; or refusal 1 or 2.
pub fn read_number(bytes: &[u8], at: usize) -> Result<Reading, Refusal>
    ensures { result ≡ number_read (read_number bytes.now at) }
{
    let mut left: usize = 4;
    let mut place = at;
    let mut weight: usize = 1;
    let mut sum: usize = 0;
    while 0 < left {
        if bytes.len() <= place {
            return Err(Refusal::Ended(bytes.len()));
        }
        let byte = bytes[place] as usize;
        if byte < 128 {
            return Ok(Reading {
                value: sum + weight * byte,
                next: place + 1,
            });
        }
        sum += weight * (byte - 128);
        weight *= 128;
        place += 1;
        left -= 1;
    }
    Err(Refusal::Malformed(at))
}
