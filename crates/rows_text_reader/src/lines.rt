// What a line adds to the bare rows that are made.
ghost use Rattle.std.specs.Prelude.{◌≡◌, length, take};
ghost use Rattle.rows_text.specs.Words.{letters};
ghost use Rattle.rows_text.specs.Reading.{add_numbers, add_content, add_line};
ghost use Rattle.table.specs.Progress.{Kept, Finds, Room, Grown, draft_of, found_in};

use rows_text::RowsWord;
use table::{Fault, Progress};

// How many letters a word has.
fn word_length(word: RowsWord) -> usize
    ensures { result ≡ length (letters word) }
{
    match word {
        RowsWord::Rows => 4,
        RowsWord::Out => 3,
        RowsWord::Order => 5,
        RowsWord::Plain => 0,
    }
}

// How many numbers a line has, which stand after those of the head, and which line it is.
#[derive(Clone, Copy)]
struct Found {
    count: usize,
    line: usize,
}

// Adds the numbers that were found, by the line's word.
fn add_numbers(
    p: Progress,
    word: RowsWord,
    numbers: &mut [usize],
    rows: &mut [u8],
    lines: &mut [usize],
    found: Found,
) -> Result<Progress, Fault>
    requires finds { Finds p found.count numbers.old }
    requires room { Room numbers.old rows.old lines.old }
    ensures { Grown
        (add_numbers found.line word (found_in p found.count numbers.old) (draft_of p numbers.old rows.old lines.old))
        result numbers.new rows.new lines.new }
{
    let count = found.count;
    let line = found.line;
    match word {
        RowsWord::Rows => table_steps::add_table(p, numbers, count, line),
        RowsWord::Out => table_steps::add_out(p, numbers, count, line),
        RowsWord::Order => crate::order::add_order(p, numbers, count, line),
        RowsWord::Plain => {
            if count == 0 {
                return Ok(p);
            }
            table_blocks::add_block(p, numbers, rows, lines, count, line)
        }
    }
}

// Adds a line without its comment.
fn add_content(
    p: Progress,
    content: &[u8],
    numbers: &mut [usize],
    rows: &mut [u8],
    lines: &mut [usize],
    line: usize,
) -> Result<Progress, Fault>
    requires kept { Kept p (take p.count numbers.old) }
    requires room { Room numbers.old rows.old lines.old }
    ensures { Grown
        (add_content line content.now (draft_of p numbers.old rows.old lines.old))
        result numbers.new rows.new lines.new }
{
    let word = crate::words::word_of(content);
    let start = word_length(word);
    let count = p.count;
    let read = table_lines::read_numbers(&content[start..], &mut numbers[count..]);
    let Some(size) = read else {
        return Err(Fault {
            number: 23,
            place: line,
        });
    };
    let found = Found { count: size, line };
    add_numbers(p, word, numbers, rows, lines, found)
}

// Adds a line of the text.
pub(crate) fn add_line(
    p: Progress,
    bytes: &[u8],
    numbers: &mut [usize],
    rows: &mut [u8],
    lines: &mut [usize],
    line: usize,
) -> Result<Progress, Fault>
    requires kept { Kept p (take p.count numbers.old) }
    requires room { Room numbers.old rows.old lines.old }
    ensures { Grown
        (add_line line bytes.now (draft_of p numbers.old rows.old lines.old))
        result numbers.new rows.new lines.new }
{
    let end = table_lines::first_of(bytes, b'#');
    add_content(p, &bytes[0..end], numbers, rows, lines, line)
}
