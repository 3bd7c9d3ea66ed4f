// Counting the vectors of each call, and printing the counts.

// One more than the last call's number.
const CALLS: usize = 24;

// The kind of the vectors that do not agree: one more than the highest refusal's number.
const WRONG: usize = 22;

// The counts, a line for each refusal's number (0 for a result) and one for the vectors that do not agree; a line has a place
// for each call, and its first count on the first line is that of all vectors.
pub(crate) const COUNTS: usize = 32 * 32;

// Where the count of a kind and a call stands.
fn place_of(kind: usize, call: usize) -> usize {
    32 * (kind % 32) + call % 32
}

// The count at `i`.
fn at(counts: &[usize], i: usize) -> usize {
    counts.get(i).copied().unwrap_or(0)
}

// One more of the count at `i`, which is answered; a count stops at a million.
fn raise(counts: &mut [usize], i: usize) -> usize {
    if counts.len() <= i {
        return 0;
    }
    let n = counts[i];
    if 1_000_000 < n {
        return n;
    }
    counts[i] = n + 1;
    n + 1
}

fn say(rt: &impl Print, text: &str) {
    let _ = rt.print(text);
}

fn put(rt: &impl Print, text: &str, n: usize) {
    let _ = print!(rt; "{text}{n}");
}

// Counts a vector, and says which one does not agree.
pub(crate) fn count(rt: &impl Print, counts: &mut [usize], call: usize, kind: usize, good: bool) {
    let vector = raise(counts, 0);
    if good {
        raise(counts, place_of(kind, call));
        return;
    }
    raise(counts, place_of(WRONG, call));
    put(rt, "\nwrong: ", vector);
}

// The line of a kind: each call's count.
fn tell_kind(rt: &impl Print, kind: usize, counts: &[usize]) {
    put(rt, "\n", kind);
    for call in 4..CALLS {
        put(rt, " ", at(counts, place_of(kind, call)));
    }
}

// The names of the calls, and a line for each kind; the last is that of vectors that do not agree.
pub(crate) fn tell_kinds(rt: &impl Print, counts: &[usize]) {
    say(
        rt,
        "\nkind read_number read_within check_pack check_placement first_crowded write_number plan row_walk check_reply plan_reply curve join plan_operator ask commit worst_case rounds replay page certify",
    );
    for kind in 0..=WRONG {
        tell_kind(rt, kind, counts);
    }
    say(rt, "\n");
}
