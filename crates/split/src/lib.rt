// Splits of an order over a pack's layers: definitions and laws. The code is in the crates split_*.
#![tactic(auto)]

// A layer's losses in steps: `each` for each record, or what whole copies of `size` blocks cost, whichever is less. `costs` has
// what 0, .., `period` copies cost, and zeros after them; `period` copies more cost costs[period] more, whatever they add to.
#[derive(Clone, Copy)]
pub struct Steps {
    pub size: usize,
    pub each: usize,
    pub period: usize,
    pub costs: [usize; 121],
}
