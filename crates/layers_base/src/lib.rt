// Reading a file's kind, n, r and the nodes out of service.
#![tactic(auto)]

ghost use Rattle.std.specs.Prelude.{◌≡◌};
ghost use Rattle.number.specs.Answers.{number_read};
ghost use Rattle.layers.specs.Layers.{is_kind, read_kind, read_base};
ghost use Rattle.layers.specs.Answers.{base_read};

use layers::{Base, BaseRead, FileKind};
use number::Reading;
use refusal::Refusal;

// Whether such a file may begin with this number.
fn is_kind(file: FileKind, first: usize) -> bool
    ensures { result ≡ is_kind file first }
{
    match file {
        FileKind::Pack => first == 1 || first == 4,
        FileKind::Placement => first == 2 || first == 3 || first == 5 || first == 6,
    }
}

// The file's first number with the place after it, or refusal 1, 2 or 3.
fn read_kind(bytes: &[u8], file: FileKind) -> Result<Reading, Refusal>
    ensures { result ≡ number_read (read_kind file bytes.now) }
{
    let number = number_code::read_number(bytes, 0)?;
    if !is_kind(file, number.value) {
        return Err(Refusal::WrongKind);
    }
    Ok(number)
}

// The kind, n, r and the nodes out of service of such a file with the place after them, or refusal 1, 2, 3 or 4.
pub fn read_base(bytes: &[u8], file: FileKind) -> Result<BaseRead, Refusal>
    ensures { result ≡ base_read (read_base file bytes.now) }
{
    let kind = read_kind(bytes, file)?;
    let n = number_code::read_within(bytes, kind.next, 2, 255)?;
    let r = number_code::read_within(bytes, n.next, 2, n.value.min(5))?;
    let list = dark_code::read_dark(bytes, r.next, kind.value, n.value)?;
    Ok(BaseRead {
        kind: kind.value,
        base: Base {
            n: n.value,
            r: r.value,
            dark: list.dark,
        },
        next: list.next,
    })
}
