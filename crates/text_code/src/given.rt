// The numbers that a program takes before its file.
ghost use Rattle.std.specs.Prelude.{◌≤◌, ◌≡◌};
ghost use Rattle.number.specs.Answers.{number_read};
ghost use Rattle.text.specs.Numbers.{read_given, end_given, given};

use number::Reading;
use refusal::Refusal;
use text::{Given, GivenEnd};

// One number: an argument, or of the input where there is none.
fn read_one(arguments: &[u8], input: &[u8], at: usize) -> Result<Reading, Refusal>
    ensures { result ≡ number_read (read_given arguments.now input.now at) }
{
    if arguments.len() == 0 {
        return number_code::read_number(input, at);
    }
    crate::decimal::read_decimal(arguments, at)
}

// Where the file is after the last number, or that an argument is left.
fn end_given(arguments: &[u8], at: usize) -> GivenEnd
    ensures { result ≡ end_given arguments.now at }
{
    if arguments.len() == 0 {
        return GivenEnd::File(at);
    }
    if at == arguments.len() {
        return GivenEnd::File(0);
    }
    GivenEnd::Extra
}

// The numbers that a program takes: its arguments in decimal, or where it has none those at the start of the input in the file's own
// form; with the place of the file after them.
pub fn read_given(arguments: &[u8], input: &[u8], count: usize) -> Given
    requires { count ≤ 8 }
    ensures { result ≡ given count arguments.now input.now }
{
    let mut values = [0usize; 8];
    let mut at: usize = 0;
    for i in 0..count {
        let Ok(n) = read_one(arguments, input, at) else {
            return Given {
                end: GivenEnd::Unread(i),
                values,
            };
        };
        values[i] = n.value;
        at = n.next;
    }
    let end = end_given(arguments, at);
    Given { end, values }
}
