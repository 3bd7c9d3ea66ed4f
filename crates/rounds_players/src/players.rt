// The two sides: each answers the other's best move.
ghost use Rattle.rounds.specs.States.{StateAsked, StormGives, CrewGives};

use crate::states::{bit, is_down};

// The fewest records that the storm's cut of two working nodes leaves, with so many repairs to come after it.
#[cycle(crew_storm)]
pub fn storm(usable: &[u16], n: usize, b: usize, repairs: usize, state: usize) -> usize
    requires { StateAsked usable.now n state }
    ensures { StormGives usable.now n b repairs state result }
{
    let mut fewest = b;
    for v in 0..n {
        if is_down(state, v) {
            continue;
        }
        let one = state + bit(v);
        for u in 0..v {
            if is_down(state, u) {
                continue;
            }
            let both = one + bit(u);
            let given = crew(usable, n, b, repairs, both);
            fewest = fewest.min(given);
        }
    }
    fewest
}

// The most records that the crew's repair of one failed node leaves; after the last cut there is none, and the records are
// counted.
#[cycle(crew_storm)]
fn crew(usable: &[u16], n: usize, b: usize, repairs: usize, state: usize) -> usize
    requires { StateAsked usable.now n state }
    ensures { CrewGives usable.now n b repairs state result }
{
    if repairs == 0 {
        return usize::from(usable[state]);
    }
    let left = repairs - 1;
    let mut most: usize = 0;
    for v in 0..n {
        if !is_down(state, v) {
            continue;
        }
        let back = state - bit(v);
        let given = storm(usable, n, b, left, back);
        most = most.max(given);
    }
    most
}
