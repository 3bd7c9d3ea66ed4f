// The usable records of every state.
ghost use Rattle.std.specs.Prelude.{◌≡◌, map, ◌^◌, ◌≤◌, ◌<◌, length, ltb};
ghost use Rattle.std.proofs.lemmas.List.Edits.{sets};
ghost use Rattle.lists.specs.Lists.{All, tally, up_to};
ghost use Rattle.packing.specs.Rows.{rows_at};
ghost use Rattle.packing.specs.Failures.{hits, usable as usable_of};
ghost use Rattle.rounds.specs.States.{down_in};
ghost use Rattle.rounds.specs.Asked.{RowsAsked};

// 1 where the row has fewer than s replicas on failed nodes, else 0.
fn kept(row: &[u8], s: usize, state: usize) -> usize
    requires { All (λ v. v < 10) row.now }
    ensures { result ≡ tally (ltb (hits (down_in state) row.now) s) 0 }
{
    let mut hit: usize = 0;
    for v in row {
        hit += (state >> *v) % 2;
    }
    usize::from(hit < s)
}

// How many of the b rows are usable in the state.
fn usable_in(rows: &[u8], r: usize, s: usize, b: usize, state: usize) -> usize
    requires { RowsAsked rows.now r b }
    ensures { result ≡ usable_of s (rows_at r b rows.now) (down_in state) }
{
    let mut usable: usize = 0;
    for j in 0..b {
        let at = j * r;
        let end = at + r;
        usable += kept(&rows[at..end], s, state);
    }
    usable
}

// Puts the usable records of each state of n nodes into `table`.
fn put_states(rows: &[u8], r: usize, s: usize, b: usize, n: usize, table: &mut [u16])
    requires rows_asked { RowsAsked rows.now r b }
    requires n_bound { (n ≤ 10) × (b ≤ 256) × (length table.old ≡ 1024) }
    ensures { table.new
        ≡ sets table.old 0 (map (λ state. usable_of s (rows_at r b rows.now) (down_in state)) (up_to (2 ^ n))) }
{
    let states: usize = 1 << n;
    for state in 0..states {
        table[state] = usable_in(rows, r, s, b, state) as u16;
    }
}

// The same. For a length that is written as a number the compiler lays out the whole row.
pub(crate) fn count_states(rows: &[u8], r: usize, s: usize, b: usize, n: usize, table: &mut [u16])
    requires rows_asked { RowsAsked rows.now r b }
    requires n_bound { (n ≤ 10) × (b ≤ 256) × (length table.old ≡ 1024) }
    ensures { table.new
        ≡ sets table.old 0 (map (λ state. usable_of s (rows_at r b rows.now) (down_in state)) (up_to (2 ^ n))) }
{
    match r {
        5 => put_states(rows, 5, s, b, n, table),
        4 => put_states(rows, 4, s, b, n, table),
        3 => put_states(rows, 3, s, b, n, table),
        2 => put_states(rows, 2, s, b, n, table),
        _ => put_states(rows, r, s, b, n, table),
    }
}
