// Joins three packs, for the benchmark. Reads the lengths of the first two as numbers, then the packs one after another on standard
// input, and writes the joined pack, or the line of the refusal; nothing where the lengths can't be read.
#![tactic(auto)]

use refusal::Refusal;

// More than the largest joined pack has.
const ROOM: usize = 21_000;

// The first `n` bytes; none where there are fewer.
fn start_of(bytes: &[u8], n: usize) -> &[u8] {
    bytes.get(..n).unwrap_or(&[])
}

// The bytes from `at` on; none where there are fewer.
fn after(bytes: &[u8], at: usize) -> &[u8] {
    bytes.get(at..).unwrap_or(&[])
}

fn put(rt: &impl Print, text: &str, n: usize) {
    let _ = print!(rt; "{text}{n}");
}

fn refuse(rt: &impl Print, e: Refusal) {
    put(rt, "refused ", refusal_code::number(e));
    put(rt, " ", refusal_code::place(e));
    let _ = rt.print("\n");
}

// Writes the joined pack, or the line of the refusal.
fn answer(rt: &impl Print, first: &[u8], second: &[u8], third: &[u8]) {
    let mut out = [0u8; ROOM];
    match join_code::join_three(first, second, third, &mut out) {
        Ok(n) => {
            let _ = rt.write_all(start_of(&out, n));
        }
        Err(e) => refuse(rt, e),
    }
}

// Takes the packs apart.
fn packs(rt: &impl Print, input: &[u8]) {
    let Ok(one) = number_code::read_number(input, 0) else {
        return;
    };
    let Ok(two) = number_code::read_number(input, one.next) else {
        return;
    };
    let rest = after(input, two.next);
    let others = after(rest, one.value);
    answer(
        rt,
        start_of(rest, one.value),
        start_of(others, two.value),
        after(others, two.value),
    );
}

fn main(rt: HostRuntime) {
    let mut buffer = [0u8; 32768];
    let taken = console::read_all(&mut rt.stdin(), &mut buffer);
    let n = taken.count;
    packs(&rt, &buffer[0..n]);
}
