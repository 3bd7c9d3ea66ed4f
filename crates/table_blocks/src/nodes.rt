// The nodes of a block, as bytes.
ghost use Rattle.std.specs.Prelude.{◌≡◌, ◌≤◌, ◌<◌, length};
ghost use Rattle.lists.specs.Lists.{All, over_start};

// Writes the nodes to the start of `rows`, a byte each.
pub(crate) fn put_nodes(rows: &mut [u8], nodes: &[usize])
    requires nodes_in_bounds { length nodes.now ≤ length rows.old }
    requires all { All (λ v. v < 256) nodes.now }
    ensures { rows.new ≡ over_start nodes.now rows.old }
{
    for (i, node) in nodes.iter().enumerate() {
        rows[i] = *node as u8;
    }
}
