// The s, k and b that an accepted placement has.
#![tactic(auto)]

ghost use Rattle.call_replies.specs.Orders.{OrderOf};

use placement::Order;

// s, k and b of an accepted placement; zeros where it is refused.
pub fn order_of(placement: &[u8]) -> Order
    ensures { OrderOf placement.now result }
{
    let check = placement_code::check_placement(placement);
    let answer = check.answer;
    match answer {
        Err(_) => Order { s: 0, k: 0, b: 0 },
        Ok(head) => Order {
            s: head.s,
            k: head.k,
            b: head.b,
        },
    }
}
