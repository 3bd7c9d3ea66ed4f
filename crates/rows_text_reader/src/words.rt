// The word that a line begins with.
ghost use Rattle.std.specs.Prelude.{◌≡◌};
ghost use Rattle.rows_text.specs.Words.{word_of};

use rows_text::RowsWord;

// The word that the line begins with.
#[tactic(auto, unfolding(rows_text::specs::Words::word_of, table::specs::Lines::begins))]
pub(crate) fn word_of(line: &[u8]) -> RowsWord
    ensures { result ≡ word_of line.now }
{
    if table_lines::starts_with(line, b"rows") {
        return RowsWord::Rows;
    }
    if table_lines::starts_with(line, b"out") {
        return RowsWord::Out;
    }
    if table_lines::starts_with(line, b"order") {
        return RowsWord::Order;
    }
    RowsWord::Plain
}
