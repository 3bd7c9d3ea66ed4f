// Reading a text, line after line.
ghost use Rattle.table.specs.Reading.{read_text};
ghost use Rattle.table.specs.Progress.{Room, Grown};

use table::{Fault, Progress};

// Reads the text into the three slices: the numbers of the pack's head, its blocks, and the line of each block.
pub fn read_text(
    text: &[u8],
    numbers: &mut [usize],
    rows: &mut [u8],
    lines: &mut [usize],
) -> Result<Progress, Fault>
    requires { Room numbers.old rows.old lines.old }
    ensures { Grown (read_text text.now) result numbers.new rows.new lines.new }
{
    numbers[0] = 4;
    let mut n: usize = 0;
    let mut r: usize = 0;
    let mut count: usize = 1;
    let mut layers: usize = 0;
    let mut blocks: usize = 0;
    let mut place: usize = 0;
    // Counted by hand, since a fault after the loop tells how many lines there are.
    let mut line: usize = 0;
    for bytes in text.split(|b| *b == b'\n') {
        line += 1;
        let p = Progress {
            n,
            r,
            count,
            layers,
            blocks,
            place,
        };
        let added = crate::lines::add_line(p, bytes, numbers, rows, lines, line);
        let Ok(next) = added else {
            return added;
        };
        n = next.n;
        r = next.r;
        count = next.count;
        layers = next.layers;
        blocks = next.blocks;
        place = next.place;
    }
    if r == 0 {
        return Err(Fault {
            number: 1,
            place: line,
        });
    }
    if layers != r {
        return Err(Fault {
            number: 1,
            place: line,
        });
    }
    Ok(Progress {
        n,
        r,
        count,
        layers,
        blocks,
        place,
    })
}
