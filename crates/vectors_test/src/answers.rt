// Answers as numbers: 0 and the values that document 01 gives a result, or a refusal's number and place.
ghost use Rattle.std.specs.Prelude.{length};

use commit::AskResult;
use layers::LayerHead;
use number::Reading;
use pack::{PackCheck, PackHead};
use packing::Record;
use placement::{PlacementCheck, PlacementHead};
use planner::{PlanResult, PlannedFile};
use refusal::Refusal;
use replay::Replayed;

// What no call answers.
pub(crate) fn unknown() -> [usize; 19] {
    [99; 19]
}

// Three numbers, and 0 after them.
pub(crate) fn numbers(a: usize, b: usize, c: usize) -> [usize; 19] {
    [a, b, c, 0, 0, 0, 0, 0, 0, 0, 0, 0, 0, 0, 0, 0, 0, 0, 0]
}

// A refusal's number and place.
pub(crate) fn refused(e: Refusal) -> [usize; 19] {
    numbers(refusal_code::number(e), refusal_code::place(e), 0)
}

pub(crate) fn number_read(read: Result<Reading, Refusal>) -> [usize; 19] {
    match read {
        Ok(number) => numbers(0, number.value, number.next),
        Err(e) => refused(e),
    }
}

pub(crate) fn number_written(written: Result<usize, Refusal>) -> [usize; 19] {
    match written {
        Ok(n) => numbers(0, n, 0),
        Err(e) => refused(e),
    }
}

// 0, eight numbers of a head and each layer's bound and size.
fn with_layers(head: PlacementHead, l: [LayerHead; 5]) -> [usize; 19] {
    [
        0,
        head.kind,
        head.n,
        head.r,
        head.s,
        head.k,
        head.b,
        head.figure,
        head.first,
        l[0].bound,
        l[0].size,
        l[1].bound,
        l[1].size,
        l[2].bound,
        l[2].size,
        l[3].bound,
        l[3].size,
        l[4].bound,
        l[4].size,
    ]
}

// n, r, the place of the first block, and the layers' numbers.
fn pack_head(head: PackHead, heads: [LayerHead; 5]) -> [usize; 19] {
    let numbers = PlacementHead {
        kind: 0,
        n: head.n,
        r: head.r,
        s: 0,
        k: 0,
        b: 0,
        figure: 0,
        first: head.first,
    };
    with_layers(numbers, heads)
}

pub(crate) fn pack_checked(check: PackCheck) -> [usize; 19] {
    let answer = check.answer;
    let heads = check.layers;
    match answer {
        Ok(head) => pack_head(head, heads),
        Err(e) => refused(e),
    }
}

// The kind, n, r, s, k, b, F, the place of the first row, and the layers' numbers.
pub(crate) fn placement_checked(check: PlacementCheck) -> [usize; 19] {
    let answer = check.answer;
    let heads = check.layers;
    match answer {
        Ok(head) => with_layers(head, heads),
        Err(e) => refused(e),
    }
}

// The length, F and the counts.
fn planned(length: usize, figure: usize, counts: [usize; 5]) -> [usize; 19] {
    [
        0, length, figure, counts[0], counts[1], counts[2], counts[3], counts[4], 0, 0, 0, 0, 0, 0,
        0, 0, 0, 0, 0,
    ]
}

pub(crate) fn plan_result(res: PlanResult) -> [usize; 19] {
    let answer = res.answer;
    let counts = res.counts;
    match answer {
        Ok(PlannedFile { length, figure }) => planned(length, figure, counts),
        Err(e) => refused(e),
    }
}

// F, the counts and the copies.
fn offered(figure: usize, counts: [usize; 5], copies: [usize; 5]) -> [usize; 19] {
    [
        0, figure, counts[0], counts[1], counts[2], counts[3], counts[4], copies[0], copies[1],
        copies[2], copies[3], copies[4], 0, 0, 0, 0, 0, 0, 0,
    ]
}

pub(crate) fn ask_result(res: AskResult) -> [usize; 19] {
    let answer = res.answer;
    let counts = res.counts;
    let copies = res.copies;
    match answer {
        Ok(figure) => offered(figure, counts, copies),
        Err(e) => refused(e),
    }
}

// 1 and the row's number, or 0.
pub(crate) fn row_found(found: Option<Record>) -> [usize; 19] {
    match found {
        Some(row) => numbers(0, 1, row.0),
        None => numbers(0, 0, 0),
    }
}

pub(crate) fn replied(reply: Result<usize, Refusal>) -> [usize; 19] {
    match reply {
        Ok(n) => numbers(0, n, 0),
        Err(e) => refused(e),
    }
}

// How many bytes the joined pack has.
pub(crate) fn joined(joined: Result<usize, Refusal>) -> [usize; 19] {
    match joined {
        Ok(n) => numbers(0, n, 0),
        Err(e) => refused(e),
    }
}

// How many bytes or entries were written.
pub(crate) fn wrote(writing: Result<usize, Refusal>) -> [usize; 19] {
    match writing {
        Ok(n) => numbers(0, n, 0),
        Err(e) => refused(e),
    }
}

pub(crate) fn worst(answer: Result<usize, Refusal>) -> [usize; 19] {
    match answer {
        Ok(n) => numbers(0, n, 0),
        Err(e) => refused(e),
    }
}

// How many records are usable.
pub(crate) fn played(answer: Result<usize, Refusal>) -> [usize; 19] {
    match answer {
        Ok(n) => numbers(0, n, 0),
        Err(e) => refused(e),
    }
}

// The lowest number, 1 and the event; for an empty log the number alone.
pub(crate) fn replayed(answer: Replayed) -> [usize; 19] {
    match answer {
        Replayed::Lowest(number, event) => [
            0, number, 1, event, 0, 0, 0, 0, 0, 0, 0, 0, 0, 0, 0, 0, 0, 0, 0,
        ],
        Replayed::Quiet(number) => numbers(0, number, 0),
        Replayed::Refused(e) => refused(e),
    }
}
