// Counting the pairs of one row.
ghost use Rattle.std.specs.Prelude.{◌<◌};
ghost use Rattle.crowding_pairs.specs.Codes.{Room, Raised, with_low, coded};

// Counts the pairs of `low` and each of the nodes after it.
fn count_after(nodes: &[u8], low: usize, table: &mut [u16])
    requires room { Room 65000 nodes.now table.old }
    requires low_bound { low < 256 }
    ensures { Raised (λ p. with_low p low nodes.now) table.old table.new }
{
    for node in nodes {
        let v = usize::from(*node);
        let p = v * (v + 1) / 2 + low;
        table[p] += 1;
    }
}

// Counts the pairs of the row's nodes.
#[tactic(auto, using(crate::proofs::Cells::part_start, crate::proofs::Cells::part_room))]
pub(crate) fn count_row(row: &[u8], table: &mut [u16])
    requires { Room 60000 row.now table.old }
    ensures { Raised (λ p. coded p row.now) table.old table.new }
{
    for (k, node) in row.iter().enumerate() {
        let low = usize::from(*node);
        count_after(&row[k + 1..], low, table);
    }
}
