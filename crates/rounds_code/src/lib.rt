// Cuts and repairs in turn on a placement.
#![tactic(auto)]

mod tables;

ghost use Rattle.std.specs.Prelude.{◌≡◌};
ghost use Rattle.packing.specs.Rows.{rows_at};
ghost use Rattle.rounds.specs.Game.{rounds as rounds_on};
ghost use Rattle.rounds.specs.Rounds.{rounds_taken, check_rounds};
ghost use Rattle.rounds.specs.Answers.{rounds_answer};
ghost use Rattle.rounds.specs.Asked.{RoundsAsked, RowsHeld, FeedersHeld, FeedersPlayed, rounds_from};

use placement::{FeederTable, PlacementHead};
use refusal::Refusal;

// Whether the rounds are 1 to 3, the nodes at most 10 and at least two more than the rounds, and the records at most 256.
fn is_taken(n: usize, b: usize, q: usize) -> bool
    ensures { result ≡ rounds_taken n b q }
{
    1 <= q && q <= 3 && n <= 10 && q + 2 <= n && b <= 256
}

// The number for the rows of a placement within the limits. All states are counted once, then the two sides play.
fn play(rows: &[u8], head: PlacementHead, q: usize) -> usize
    requires { RoundsAsked rows.now head q }
    ensures { result ≡ rounds_on head.n head.s (rows_at head.r head.b rows.now) q }
{
    let n = head.n;
    let r = head.r;
    let s = head.s;
    let b = head.b;
    let repairs = q - 1;
    let mut usable = [0u16; 1024];
    tables::count_states(rows, r, s, b, n, &mut usable);
    rounds_players::storm(&usable, n, b, repairs, 0)
}

// The answer for an accepted placement.
fn play_accepted(bytes: &[u8], head: PlacementHead, q: usize) -> Result<usize, Refusal>
    requires { RowsHeld bytes.now head }
    ensures { result ≡ rounds_answer (rounds_from bytes.now head q) }
{
    let n = head.n;
    let b = head.b;
    let first = head.first;
    if !is_taken(n, b, q) {
        return Err(Refusal::BadRounds);
    }
    let number = play(&bytes[first..], head, q);
    Ok(number)
}

// The answer for an accepted placement with feeders, which stand for its nodes.
fn play_feeders(
    bytes: &[u8],
    head: PlacementHead,
    table: FeederTable,
    q: usize,
) -> Result<usize, Refusal>
    requires { FeedersHeld bytes.now head table }
    ensures { FeedersPlayed bytes.now head table q result }
{
    let n = table.number;
    let each = table.each;
    let r = head.r;
    let s = head.s;
    let k = head.k;
    let b = head.b;
    let first = head.first;
    let kind = head.kind;
    let figure = head.figure;
    let mut fed = [0u8; 20480];
    feeders_code::feeder_rows(&bytes[first..], &each, r, b, &mut fed);
    let units = PlacementHead {
        kind,
        n,
        r,
        s,
        k,
        b,
        figure,
        first: 0,
    };
    play_accepted(&fed, units, q)
}

// Checks a placement and answers how many of its records are usable after q rounds, in each of which the storm takes two working
// nodes down, while the crew brings one back between rounds, each side playing its best. Refuses as `check_placement` does, then
// 18 where q is outside 1 to 3, n above 10 or below q + 2, or b above 256. In kind 6 feeders stand for nodes, and g for n.
//
// The number is the fewest usable records over all sets of q + 1 nodes, and so at least the curve's figure: `k-rounds` in
// `promises`.
pub fn rounds(bytes: &[u8], q: usize) -> Result<usize, Refusal>
    ensures { result ≡ rounds_answer (check_rounds bytes.now q) }
{
    let check = placement_code::check_placement(bytes);
    let head = check.answer?;
    let table = check.feeders;
    if table.number == 0 {
        return play_accepted(bytes, head, q);
    }
    play_feeders(bytes, head, table, q)
}
