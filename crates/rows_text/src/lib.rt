// Bare rows as text: what reading it means. The code is in rows_text_reader and rows_text_code.
#![tactic(auto)]

// The word that a line begins with; a line of a row has none.
#[derive(Clone, Copy)]
pub enum RowsWord {
    Rows,
    Out,
    Order,
    Plain,
}
