// Reading decimal numbers.
ghost use Rattle.std.specs.Prelude.{◌≡◌};
ghost use Rattle.number.specs.Answers.{number_read};
ghost use Rattle.text.specs.Decimal.{read_decimal, end_digits};
ghost use Rattle.text.specs.Digits.{digit_at};

use number::Reading;
use refusal::Refusal;

// The digit at a place, 10 where there is none.
fn digit_at(text: &[u8], at: usize) -> usize
    ensures { result ≡ digit_at text.now at }
{
    if text.len() <= at {
        return 10;
    }
    let byte = text[at] as usize;
    if byte < 48 {
        return 10;
    }
    if 57 < byte {
        return 10;
    }
    byte - 48
}

// The number of an argument whose digits end at `at`.
fn end_digits(text: &[u8], start: usize, at: usize, value: usize) -> Result<Reading, Refusal>
    ensures { result ≡ number_read (end_digits text.now start at value) }
{
    if at <= start {
        return Err(Refusal::Malformed(start));
    }
    if text.len() <= at {
        return Err(Refusal::Malformed(start));
    }
    let byte = text[at] as usize;
    if 0 < byte {
        return Err(Refusal::Malformed(start));
    }
    Ok(Reading {
        value,
        next: at + 1,
    })
}

// The number of the argument that starts at `at`, one to nine digits and a byte 0, with the place after it.
pub fn read_decimal(text: &[u8], at: usize) -> Result<Reading, Refusal>
    ensures { result ≡ number_read (read_decimal text.now at) }
{
    let mut place = at;
    let mut value: usize = 0;
    for _digits in 0..9usize {
        let digit = digit_at(text, place);
        if 9 < digit {
            return end_digits(text, at, place, value);
        }
        value = value * 10 + digit;
        place += 1;
    }
    end_digits(text, at, place, value)
}
