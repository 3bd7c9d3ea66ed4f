// The word that a line begins with.
ghost use Rattle.std.specs.Prelude.{◌≡◌};
ghost use Rattle.table.specs.Lines.{begins, word_of};

use table::Word;

// Whether the line begins with these bytes.
pub fn starts_with(line: &[u8], word: &[u8]) -> bool
    ensures { result ≡ begins word.now line.now }
{
    for i in 0..word.len() {
        if line.len() <= i {
            return false;
        }
        if line[i] != word[i] {
            return false;
        }
    }
    true
}

// The word that the line begins with.
#[tactic(auto, unfolding(table::specs::Lines::word_of, table::specs::Lines::begins))]
pub fn word_of(line: &[u8]) -> Word
    ensures { result ≡ word_of line.now }
{
    if starts_with(line, b"table") {
        return Word::Table;
    }
    if starts_with(line, b"out") {
        return Word::Out;
    }
    if starts_with(line, b"mu") {
        return Word::Mu;
    }
    Word::Plain
}
