// The numbers of a line.
ghost use Rattle.std.specs.Prelude.{◌≡◌, ◌≤◌, [], length};
ghost use Rattle.table.specs.Lines.{read_numbers};
ghost use Rattle.table.specs.Progress.{digit_of, NumbersIn};

// The digit that a byte is; 10 for a blank, 11 for any other byte.
fn digit_of(byte: u8) -> usize
    ensures { result ≡ digit_of byte }
{
    match byte {
        b' ' | b'\t' | b'\r' => 10,
        b'0'..=b'9' => usize::from(byte - b'0'),
        _ => 11,
    }
}

// Reads the line's numbers into the start of `numbers`. Answers how many there are, or that the line can't be read; entries after
// them are free.
pub fn read_numbers(line: &[u8], numbers: &mut [usize]) -> Option<usize>
    requires { 255 ≤ length numbers.old }
    ensures { NumbersIn (read_numbers line.now 0 0 []) result numbers.new }
{
    let mut digits: usize = 0;
    let mut value: usize = 0;
    let mut found: usize = 0;
    for byte in line {
        let digit = digit_of(*byte);
        if digit < 10 {
            if 8 <= digits {
                return None;
            }
            if 255 <= found {
                return None;
            }
            value = value * 10 + digit;
            digits += 1;
            continue;
        }
        if 10 < digit {
            return None;
        }
        if digits == 0 {
            continue;
        }
        numbers[found] = value;
        found += 1;
        digits = 0;
        value = 0;
    }
    if digits == 0 {
        return Some(found);
    }
    numbers[found] = value;
    Some(found + 1)
}
