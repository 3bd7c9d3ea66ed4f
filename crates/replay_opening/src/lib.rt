// Before the first event: the placement is checked, and its records are listed by node or, in kind 6, by feeder.
#![tactic(auto)]

ghost use Rattle.std.specs.Prelude.{◌≡◌, ℕ, ◌+◌, ◌≤◌, length, get_or};
ghost use Rattle.packing.specs.Rows.{rows_at};
ghost use Rattle.placement.specs.Answers.{rows_by_table};
ghost use Rattle.worst.specs.Asked.{FeedersAsked};
ghost use Rattle.worst.specs.Records.{IndexOf};
ghost use Rattle.replay.specs.Board.{Begun};

use placement::{FeederTable, Order};
use replay::{Progress, Replayed};

// Makes the index of rows of nodes by the feeders that they hang on.
fn list_by_feeder(rows: &[u8], table: FeederTable, r: usize, order: Order, index: &mut [u16])
    requires feeders_asked { FeedersAsked table r order rows.now }
    requires rows_in_bounds { 257 + length rows.now ≤ length index.old }
    ensures { IndexOf (rows_at r order.b (rows_by_table table.each r order.b rows.now)) index.new }
{
    let each = table.each;
    let b = order.b;
    let mut fed = [0u8; 20480];
    feeders_code::feeder_rows(rows, &each, r, b, &mut fed);
    let end = b * r;
    worst_records::list_records(&fed[0..end], r, b, index);
}

// Checks a placement and begins a replay on it, all nodes being up; in kind 6 feeders stand for nodes, and g for n.
pub fn begin(bytes: &[u8], board: &mut [u16]) -> Progress
    requires { (length board.old ≡ 25_089) × ((q : ℕ) → get_or board.old q 0 ≡ 0) }
    ensures { Begun bytes.now board.new result }
{
    let check = placement_code::check_placement(bytes);
    let answer = check.answer;
    let table = check.feeders;
    match answer {
        Err(e) => Progress {
            n: 0,
            s: 0,
            b: 0,
            time: 0,
            usable: 0,
            answer: Replayed::Refused(e),
        },
        Ok(head) => {
            let n = head.n;
            let r = head.r;
            let s = head.s;
            let k = head.k;
            let b = head.b;
            let first = head.first;
            let end = first + b * r;
            let g = table.number;
            if g == 0 {
                worst_records::list_records(&bytes[first..end], r, b, &mut board[0..20_737]);
                return Progress {
                    n,
                    s,
                    b,
                    time: 0,
                    usable: b,
                    answer: Replayed::Quiet(b),
                };
            }
            list_by_feeder(
                &bytes[first..end],
                table,
                r,
                Order { s, k, b },
                &mut board[0..20_737],
            );
            Progress {
                n: g,
                s,
                b,
                time: 0,
                usable: b,
                answer: Replayed::Quiet(b),
            }
        }
    }
}
