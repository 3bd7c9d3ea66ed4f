// The vectors as they stand on standard input: heads, each with its numbers and what it says.
//
// A head is four bytes: what is done, the refusal's number that is expected (0 for a result), how many numbers are given and
// how many are expected. The given numbers follow, then the expected ones, four bytes each, lowest first; the largest stands
// for the largest of 64 bits. What is done:
//   0  as many bytes as the number given follow; they are the input of the calls to come
//   1  as many bytes as the number given follow; the calls to come are to write bytes of their start
//   2  the byte at the first number becomes the second
//   3  the input is the part of the bytes from the first number to the second
//   otherwise a call. Its own numbers are given first, in the order of its parameters; then, from the fifth on, the byte that
//   the lent output is filled with (an entry of the working slice has it twice), the output's length, how many bytes are to
//   be written, the working slice's length and how many of its first entries are free afterwards; from the tenth on, five
//   more of its own.
ghost use Rattle.std.specs.Prelude.{◌≡◌, ◌≤◌, length};

use std::io::Read;

// The head at the input's end.
pub(crate) const END: usize = 256;

#[derive(Clone, Copy)]
pub(crate) struct Head {
    pub call: usize,
    pub kind: usize,
    pub given: usize,
    pub expected: usize,
}

// The numbers that a head gives: a call's own, and those of the slices lent to it.
#[derive(Clone, Copy)]
pub(crate) struct Given {
    pub a: usize,
    pub b: usize,
    pub c: usize,
    pub d: usize,
    pub fill: usize,
    pub room: usize,
    pub written: usize,
    pub entries: usize,
    pub free: usize,
    pub more: [usize; 5],
}

// The part of the bytes that is the input.
#[derive(Clone, Copy)]
pub(crate) struct Part {
    pub from: usize,
    pub to: usize,
}

// Fills the slice from the input; false where the input has fewer bytes.
fn fill(reader: &mut impl Read, part: &mut [u8]) -> bool {
    let n = console::read_all(reader, part).count;
    n == part.len()
}

// The next head.
pub(crate) fn next_head(reader: &mut impl Read) -> Head {
    let mut four = [0u8; 4];
    if fill(reader, &mut four) {
        return Head {
            call: usize::from(four[0]),
            kind: usize::from(four[1]),
            given: usize::from(four[2]),
            expected: usize::from(four[3]),
        };
    }
    Head {
        call: END,
        kind: 0,
        given: 0,
        expected: 0,
    }
}

// The number in four bytes, lowest first; the largest stands for the largest of 64 bits.
fn of_four(four: [u8; 4]) -> usize {
    match u32::from_le_bytes(four) {
        u32::MAX => usize::MAX,
        n => n as usize,
    }
}

// The first `count` numbers in the bytes, 0 after them.
fn numbers_in(bytes: &[u8], count: usize) -> [usize; 19]
    requires { (length bytes.now ≡ 76) × (count ≤ 19) }
    ensures { 19 ≡ length result }
{
    let mut numbers = [0usize; 19];
    for (i, number) in numbers.iter_mut().enumerate().take(count) {
        let at = 4 * i;
        *number = of_four([bytes[at], bytes[at + 1], bytes[at + 2], bytes[at + 3]]);
    }
    numbers
}

// Reads `n` bytes to the start of `bytes`: that part.
pub(crate) fn read_bytes(reader: &mut impl Read, bytes: &mut [u8], n: usize) -> Part {
    if n <= bytes.len() {
        fill(reader, &mut bytes[0..n]);
    }
    Part { from: 0, to: n }
}

// The next `count` numbers, at most 19, and 0 after them.
pub(crate) fn next_numbers(reader: &mut impl Read, count: usize) -> [usize; 19]
    ensures { 19 ≡ length result }
{
    let mut bytes = [0u8; 76];
    if 19 < count {
        return [0; 19];
    }
    read_bytes(reader, &mut bytes, 4 * count);
    numbers_in(&bytes, count)
}

// The numbers that are given.
pub(crate) fn next_given(reader: &mut impl Read, count: usize) -> Given {
    let n = next_numbers(reader, count);
    let more = [n[9], n[10], n[11], n[12], n[13]];
    Given {
        a: n[0],
        b: n[1],
        c: n[2],
        d: n[3],
        fill: n[4],
        room: n[5],
        written: n[6],
        entries: n[7],
        free: n[8],
        more,
    }
}

pub(crate) fn byte_of(n: usize) -> u8 {
    (n % 256) as u8
}

// Changes the byte at `at` to `v`.
pub(crate) fn change(bytes: &mut [u8], at: usize, v: usize) {
    if at < bytes.len() {
        bytes[at] = byte_of(v);
    }
}

// The first `n` bytes; none where there are fewer.
pub(crate) fn start_of(bytes: &[u8], n: usize) -> &[u8] {
    bytes.get(..n).unwrap_or(&[])
}

// That part of the bytes; an empty one where there is no such part.
pub(crate) fn part_of(bytes: &[u8], part: Part) -> &[u8] {
    start_of(bytes, part.to).get(part.from..).unwrap_or(&[])
}
