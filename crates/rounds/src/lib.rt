// Cuts and repairs in turn: definitions and laws. The code is in rounds_code.
#![tactic(auto)]

use refusal::Refusal;
