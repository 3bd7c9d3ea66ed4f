// What a program is given as text: the refusals of text, and the numbers that it takes before its file. The code is in text_code.
#![tactic(auto)]

// The refusals of text, with numbers from 22 on.
#[derive(Clone, Copy)]
pub enum TextRefusal {
    // More arguments than the program takes: how many it takes.
    Arguments(usize),
    // A line that can't be read: its number, from 1.
    Unreadable(usize),
    // A text longer than the program holds: what it holds.
    TooLong(usize),
}

// Where the numbers that a program takes end: the place of its file in the input; or the index of the first that can't be read;
// or more arguments than numbers.
#[derive(Clone, Copy)]
pub enum GivenEnd {
    File(usize),
    Unread(usize),
    Extra,
}

// The numbers that a program takes before its file, and where they end; entries that it does not take are 0.
#[derive(Clone, Copy)]
pub struct Given {
    pub end: GivenEnd,
    pub values: [usize; 8],
}
