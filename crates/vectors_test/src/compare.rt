// Comparing what a call gave and left with what is expected.

// What an entry of the working slice is filled with where a byte of the output is filled with `fill`.
pub(crate) fn entry_of(fill: u8) -> u16 {
    257 * u16::from(fill)
}

// The byte of `written` at `i`, `fill` past its end.
pub(crate) fn byte_at(written: &[u8], i: usize, fill: u8) -> u8 {
    written.get(i).copied().unwrap_or(fill)
}

// Whether the output starts with `written` and has `fill` after it.
pub(crate) fn left(out: &[u8], written: &[u8], fill: u8) -> bool {
    out.starts_with(written) && out[written.len()..].iter().all(|byte| *byte == fill)
}

// Whether every entry from `free` to `end` is the one that the slice was filled with.
pub(crate) fn kept(work: &[u16], free: usize, end: usize, entry: u16) -> bool {
    work.get(free..end)
        .is_some_and(|part| part.iter().all(|kept| *kept == entry))
}
