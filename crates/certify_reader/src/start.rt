// Reading the number 7, n, r and the nodes out of service.
ghost use Rattle.std.specs.Prelude.{◌≡◌};
ghost use Rattle.number.specs.Answers.{number_read};
ghost use Rattle.layers.specs.Answers.{base_read};
ghost use Rattle.certify.specs.Bare.{read_seven, read_start};

use layers::{Base, BaseRead};
use number::Reading;
use refusal::Refusal;

// The file's first number, 7, with the place after it, or refusal 1, 2 or 3.
fn read_seven(bytes: &[u8]) -> Result<Reading, Refusal>
    ensures { result ≡ number_read (read_seven bytes.now) }
{
    let number = number_code::read_number(bytes, 0)?;
    let v = number.value;
    if v == 7 {
        return Ok(number);
    }
    Err(Refusal::WrongKind)
}

// The numbers that a file of bare rows begins with and the place after them, or refusal 1, 2, 3 or 4. The list is read as in kind 5.
pub(crate) fn read_start(bytes: &[u8]) -> Result<BaseRead, Refusal>
    ensures { result ≡ base_read (read_start bytes.now) }
{
    let kind = read_seven(bytes)?;
    let n = number_code::read_within(bytes, kind.next, 2, 255)?;
    let r = number_code::read_within(bytes, n.next, 2, n.value.min(5))?;
    let list = dark_code::read_dark(bytes, r.next, 5, n.value)?;
    Ok(BaseRead {
        kind: 7,
        base: Base {
            n: n.value,
            r: r.value,
            dark: list.dark,
        },
        next: list.next,
    })
}
