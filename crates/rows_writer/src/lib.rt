// Copying bytes, and writing blocks as rows.
#![tactic(auto)]

ghost use Rattle.std.specs.Prelude.{◌≡◌, ◌+◌, ◌*◌, ◌≤◌, ◌<◌, min, length, take, drop};
ghost use mathlib.Core.List.{◌++◌, flatten};
ghost use Rattle.lists.specs.Lists.{over_start};
ghost use Rattle.packing.specs.Rows.{rows_at, repeated};

// Writes the bytes to the start of `out`.
pub fn copy_bytes(out: &mut [u8], bytes: &[u8])
    requires { length bytes.now ≤ length out.old }
    ensures { out.new ≡ over_start bytes.now out.old }
{
    for place in 0..bytes.len() {
        out[place] = bytes[place];
    }
}

// Writes c rows of r bytes to the start of `out`. Row j is block j mod m of the m blocks: the blocks are written once, and then, as
// what stands there is whole copies of them, as much of it as there is, again and again.
pub fn write_rows(out: &mut [u8], blocks: &[u8], m: usize, r: usize, c: usize)
    requires r_in_bounds { c * r ≤ length out.old }
    requires r_in_bounds_2 { m * r ≤ length blocks.now }
    requires m_nonzero { 0 < c → 0 < m }
    ensures { out.new
        ≡ flatten (repeated (rows_at r m blocks.now) c) ++ drop (c * r) out.old }
{
    let once = m.min(c);
    let end = once * r;
    copy_bytes(out, &blocks[0..end]);
    let mut written = once;
    // A while loop: what is written doubles in a turn.
    while written < c {
        let more = written.min(c - written);
        let to = written * r;
        let count = more * r;
        out.copy_within(..count, to);
        written += more;
    }
}
