// Lines of blocks.
ghost use Rattle.table.specs.Reading.{add_block};
ghost use Rattle.table.specs.Progress.{Finds, Room, Grown, draft_of, found_in};

use table::{Fault, Progress};

// A block of the present layer, with its line.
pub fn add_block(
    p: Progress,
    numbers: &mut [usize],
    rows: &mut [u8],
    lines: &mut [usize],
    found: usize,
    line: usize,
) -> Result<Progress, Fault>
    requires finds { Finds p found numbers.old }
    requires room { Room numbers.old rows.old lines.old }
    ensures { Grown
        (add_block line (found_in p found numbers.old) (draft_of p numbers.old rows.old lines.old))
        result numbers.new rows.new lines.new }
{
    let n = p.n;
    let r = p.r;
    let count = p.count;
    let layers = p.layers;
    let blocks = p.blocks;
    let place = p.place;
    if layers == 0 {
        return Err(Fault {
            number: 23,
            place: line,
        });
    }
    if found != r {
        return Err(Fault {
            number: 23,
            place: line,
        });
    }
    if 4_096 <= blocks {
        return Err(Fault {
            number: 4,
            place: line,
        });
    }
    let end = count + found;
    if !table_steps::in_order(&numbers[count..end], n) {
        return Err(Fault {
            number: 6,
            place: line,
        });
    }
    crate::nodes::put_nodes(&mut rows[place..], &numbers[count..end]);
    lines[blocks] = line;
    let last = count - 1;
    numbers[last] = numbers[last] + 1;
    Ok(Progress {
        n,
        r,
        count,
        layers,
        blocks: blocks + 1,
        place: place + found,
    })
}
