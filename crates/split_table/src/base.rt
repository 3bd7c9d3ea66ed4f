// The lowest line of the planner's table: the records below layer 0.
ghost use Rattle.std.specs.Prelude.{◌≡◌, ◌≤◌, map, length};
ghost use Rattle.std.proofs.lemmas.List.Edits.{sets};
ghost use Rattle.lists.specs.Lists.{up_to};
ghost use Rattle.split.specs.Working.{loss_below};

// Writes the line, of w entries, to the start of the working slice.
pub(crate) fn base_line(work: &mut [u16], w: usize)
    requires { w ≤ length work.old }
    ensures { work.new ≡ sets work.old 0 (map loss_below (up_to w)) }
{
    for (b, entry) in work[0..w].iter_mut().enumerate() {
        *entry = if b == 0 { 0 } else { 8192 };
    }
}
