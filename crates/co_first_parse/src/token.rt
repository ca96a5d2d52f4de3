use co_base::{Span, Text};

/// A keyword or a punctuator of the form [lex.key], [lex.operators]; `main` and `corun` count as keywords.
#[derive(Clone, Copy, Debug, PartialEq, Eq)]
pub enum Mark {
    Int,
    Main,
    Return,
    Long,
    While,
    Corun,
    OpenParenthesis,
    CloseParenthesis,
    OpenBrace,
    CloseBrace,
    Semicolon,
    Assign,
    Plus,
    Minus,
    Scope,
}

/// What a token is [lex.token].
#[derive(Debug, Drop)]
pub enum Kind {
    Fixed(Mark),
    Name(Text),
    Number(u32),
}

/// A token and the place of its first byte.
#[derive(Debug, Drop)]
pub struct Token {
    pub kind: Kind,
    pub span: Span,
}
