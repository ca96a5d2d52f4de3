use co_base::Num;
use co_lex::{Mark, Word};

/// What a token is, but for its text.
#[derive(Clone, Copy)]
pub enum Lead {
    Name,
    Word(Word),
    Int(Num, i64),
    Text,
    Mark(Mark),
    End,
}
