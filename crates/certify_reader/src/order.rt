// Reading s, k and b of a file of bare rows.
ghost use Rattle.std.specs.Prelude.{◌≡◌, ◌≤◌};
ghost use Rattle.layers.specs.Answers.{site_of};
ghost use Rattle.certify.specs.Bare.{read_order};
ghost use Rattle.certify.specs.Answers.{order_read};

use certify::OrderRead;
use layers::Base;
use placement::Order;
use refusal::Refusal;

// The three numbers from `at` on with the place after them, or refusal 1, 2 or 4.
pub(crate) fn read_order(bytes: &[u8], base: Base, at: usize) -> Result<OrderRead, Refusal>
    requires { 1 ≤ base.n }
    ensures { result ≡ order_read (read_order (site_of base) bytes.now at) }
{
    let n = base.n;
    let r = base.r;
    let s = number_code::read_within(bytes, at, 1, r)?;
    let k = number_code::read_within(bytes, s.next, s.value, n - 1)?;
    let b = number_code::read_within(bytes, k.next, 1, 4_096)?;
    Ok(OrderRead {
        order: Order {
            s: s.value,
            k: k.value,
            b: b.value,
        },
        next: b.next,
    })
}
