// How a program answers, lines of numbers, and what `plan` writes: definitions and laws. The code is in `reply_lines` and `reply_plan`.
#![tactic(auto)]

// The entries that `plan` works in: no order needs more.
pub const WORK_MOST: usize = 20_485;

// The bytes that `plan` asks for: no order needs more.
pub const OUTPUT_MOST: usize = 20_928;
