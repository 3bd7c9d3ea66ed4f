// Reading and writing a number, for C and Rust: a slice is a pointer and a length, the answer's numbers are put into the last one.
#![tactic(auto)]

ghost use Rattle.std.specs.Prelude.{◌≤◌, [], ◌∷◌, length};
ghost use Rattle.refusal.specs.Refusals.{result as result_of};
ghost use Rattle.number.specs.Numbers.{read_number, read_within, write_number};
ghost use Rattle.number.specs.Answers.{number_read, read_outcome};
ghost use Rattle.exports.specs.Exports.{Put, Told, fits};
ghost use Rattle.export_number.specs.Exported.{NumberExported};

use exports::BAD_LENGTH;
use number::Reading;
use refusal::Refusal;

// Puts a number's value and the next place; answers 0.
fn reading(value: usize, next: usize, answer: &mut [usize]) -> usize
    requires { 3 ≤ length answer.old }
    ensures { Put (result_of (value ∷ next ∷ [])) answer.old answer.new result }
{
    export_answers::put(answer, &[0, value, next]);
    0
}

// Puts what reading a number answers.
fn tell_read(read: Result<Reading, Refusal>, answer: &mut [usize]) -> usize
    requires { 3 ≤ length answer.old }
    ensures { Put (read_outcome read) answer.old answer.new result }
{
    match read {
        Ok(number) => reading(number.value, number.next, answer),
        Err(e) => export_answers::refused(e, answer),
    }
}

// Reads a number: `number_code::read_number`. The answer has 3 numbers: 0, the value and the next place.
pub fn musseltwig_read_number(bytes: &[u8], at: usize, answer: &mut [usize]) -> usize
    ensures { Told (fits 3 answer.old) (read_outcome (number_read (read_number bytes.now at)))
        answer.old answer.new result }
{
    if answer.len() < 3 {
        return BAD_LENGTH;
    }
    let read = number_code::read_number(bytes, at);
    tell_read(read, answer)
}

// Reads a number within limits: `number_code::read_within`. The answer is that of `musseltwig_read_number`.
pub fn musseltwig_read_within(
    bytes: &[u8],
    at: usize,
    lo: usize,
    hi: usize,
    answer: &mut [usize],
) -> usize
    ensures { Told (fits 3 answer.old) (read_outcome (number_read (read_within lo hi bytes.now at)))
        answer.old answer.new result }
{
    if answer.len() < 3 {
        return BAD_LENGTH;
    }
    let read = number_code::read_within(bytes, at, lo, hi);
    tell_read(read, answer)
}

// Writes a number in its shortest form: `number_writer::write_number`. The answer has 2 numbers: 0 and the bytes written.
pub fn musseltwig_write_number(out: &mut [u8], value: usize, answer: &mut [usize]) -> usize
    ensures { NumberExported (write_number (length out.old) value)
        out.old out.new answer.old answer.new result }
{
    if answer.len() < 2 {
        return BAD_LENGTH;
    }
    let wrote = number_writer::write_number(out, value);
    export_answers::writing(wrote, answer)
}
