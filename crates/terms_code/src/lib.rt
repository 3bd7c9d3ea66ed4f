// Reading a placement's s, k, b and F.
#![tactic(auto)]

ghost use Rattle.std.specs.Prelude.{◌≡◌, ◌≤◌};
ghost use Rattle.layers.specs.Answers.{site_of};
ghost use Rattle.placement.specs.Placement.{read_terms};
ghost use Rattle.placement.specs.Answers.{terms_read};

use layers::Base;
use placement::{Terms, TermsRead};
use refusal::Refusal;

// The numbers from `at` on with the place after them, or refusal 1, 2 or 4.
pub fn read_terms(bytes: &[u8], base: Base, at: usize) -> Result<TermsRead, Refusal>
    requires { 1 ≤ base.n }
    ensures { result ≡ terms_read (read_terms (site_of base) bytes.now at) }
{
    let n = base.n;
    let r = base.r;
    let s = number_code::read_within(bytes, at, 1, r)?;
    let k = number_code::read_within(bytes, s.next, s.value, n - 1)?;
    let b = number_code::read_within(bytes, k.next, 1, 4_096)?;
    let figure = number_code::read_within(bytes, b.next, 0, b.value)?;
    Ok(TermsRead {
        terms: Terms {
            s: s.value,
            k: k.value,
            b: b.value,
            figure: figure.value,
            place: b.next,
        },
        next: figure.next,
    })
}
