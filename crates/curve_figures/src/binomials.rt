// Rows of binomials, carried from one number of things to the next by Pascal's rule: no table is looked up.
ghost use Rattle.std.specs.Prelude.{◌≡◌, suc, ◌≤◌};
ghost use Rattle.curve.specs.Binomials.{binomial_row};

// C(m+1,0) to C(m+1,5), from those of m.
pub(crate) fn next_row(row: [usize; 6], m: usize) -> [usize; 6]
    requires { (row ≡ binomial_row m) × (m ≤ 254) }
    ensures { result ≡ binomial_row (suc m) }
{
    [
        1,
        row[0] + row[1],
        row[1] + row[2],
        row[2] + row[3],
        row[3] + row[4],
        row[4] + row[5],
    ]
}

// C(m,0) to C(m,5).
pub(crate) fn row_of(m: usize) -> [usize; 6]
    requires { m ≤ 255 }
    ensures { result ≡ binomial_row m }
{
    let mut row = [1, 0, 0, 0, 0, 0];
    for i in 0..m {
        let next = next_row(row, i);
        row = next;
    }
    row
}
