// The largest number of rows that hold one set of nodes, and the layer with the highest figure.
#![tactic(auto)]

mod most;

ghost use Rattle.std.specs.Prelude.{◌≡◌, cond, ◌<◌, leb};
ghost use Rattle.packing.specs.Rows.{rows_at};
ghost use Rattle.certify.specs.Answers.{choice_in, choice_below};
ghost use Rattle.certify.specs.Asked.{RowsAsked, OrderAsked};

use certify::Choice;
pub use most::most_together;
use placement::Order;

// The least lambda and the figure with all b rows in layer x.
fn choice_in(rows: &[u8], r: usize, order: Order, x: usize) -> Choice
    requires rows_asked { RowsAsked r order.b rows.now }
    requires order_asked { OrderAsked r order × (x < order.s) }
    ensures { result ≡ choice_in order (rows_at r order.b rows.now) x }
{
    let s = order.s;
    let k = order.k;
    let b = order.b;
    let lambda = most_together(rows, b, r, x);
    let lost = b.min(placement_figure::floors_down(k, s, x, lambda));
    Choice {
        layer: x,
        lambda,
        figure: b - lost,
    }
}

// The one with the higher figure, of equal ones the second.
fn better(first: Choice, second: Choice) -> Choice
    ensures { result ≡ cond (leb first.figure second.figure) second first }
{
    if first.figure <= second.figure {
        second
    } else {
        first
    }
}

// The layer below s with the highest figure for the b rows of r bytes, of equal ones the highest, with its least lambda.
pub fn choose_layer(rows: &[u8], r: usize, order: Order) -> Choice
    requires rows_asked { RowsAsked r order.b rows.now }
    requires order_asked { OrderAsked r order }
    ensures { result ≡ choice_below order (rows_at r order.b rows.now) order.s }
{
    let mut best = choice_in(rows, r, order, 0);
    for x in 1..order.s {
        let next = choice_in(rows, r, order, x);
        best = better(best, next);
    }
    best
}
