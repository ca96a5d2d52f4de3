use co_base::{Num, Span, Text};

/// A token and the place of its first byte.
#[derive(Debug, Drop)]
pub struct Token {
    pub kind: TokenKind,
    pub span: Span,
}

/// What a token is [lex.token].
#[derive(Debug, Drop)]
pub enum TokenKind {
    /// An identifier that is none of the words [lex.name].
    Name(Text),
    /// A keyword [lex.key].
    Word(Word),
    /// An integer literal: its type, `Int`, `Long` or `Size`, and its value, at most 2^63 - 1 [lex.icon].
    Int(Num, i64),
    /// A string literal: the bytes that it stands for, without its quotes and escapes [lex.string].
    Lit(Text),
    /// An operator or a punctuator [lex.operators].
    Mark(Mark),
    /// What stands after the last byte.
    End,
}

/// The keywords: first those that the grammar uses, then those that it reserves. `WORDS` has their spellings.
#[derive(Clone, Copy, Debug, PartialEq, Eq)]
pub enum Word {
    Auto,
    Bool,
    Break,
    Catch,
    Class,
    CoAwait,
    CoReturn,
    CoYield,
    Const,
    Continue,
    Default,
    Delete,
    Else,
    Explicit,
    False,
    For,
    If,
    Inline,
    Int,
    Long,
    New,
    Noexcept,
    Nullptr,
    Operator,
    Private,
    Protected,
    Public,
    Return,
    Static,
    StaticCast,
    Struct,
    This,
    Throw,
    True,
    Try,
    Using,
    Void,
    While,
    Alignas,
    Alignof,
    Case,
    Char,
    Concept,
    ConstCast,
    Consteval,
    Constexpr,
    Constinit,
    Decltype,
    Do,
    Double,
    DynamicCast,
    Enum,
    Export,
    Extern,
    Float,
    Friend,
    Goto,
    Mutable,
    Namespace,
    ReinterpretCast,
    Requires,
    Short,
    Signed,
    Sizeof,
    StaticAssert,
    Switch,
    Template,
    ThreadLocal,
    Typedef,
    Typeid,
    Typename,
    Union,
    Unsigned,
    Virtual,
    Volatile,
}

/// The operators and punctuators, the longest first. `MARKS` has their spellings.
#[derive(Clone, Copy, Debug, PartialEq, Eq)]
pub enum Mark {
    /// `<<=`
    ShlAssign,
    /// `>>=`
    ShrAssign,
    /// `...`
    Ellipsis,
    /// `::`
    Scope,
    /// `->`
    Arrow,
    /// `++`
    Increment,
    /// `--`
    Decrement,
    /// `<<`
    Shl,
    /// `>>`
    Shr,
    /// `<=`
    LessEqual,
    /// `>=`
    GreaterEqual,
    /// `==`
    Equal,
    /// `!=`
    NotEqual,
    /// `&&`
    AndAnd,
    /// `||`
    OrOr,
    /// `+=`
    AddAssign,
    /// `-=`
    SubAssign,
    /// `*=`
    MulAssign,
    /// `/=`
    DivAssign,
    /// `%=`
    RemAssign,
    /// `&=`
    AndAssign,
    /// `|=`
    OrAssign,
    /// `^=`
    XorAssign,
    /// `{`
    OpenBrace,
    /// `}`
    CloseBrace,
    /// `(`
    OpenParen,
    /// `)`
    CloseParen,
    /// `;`
    Semicolon,
    /// `:`
    Colon,
    /// `,`
    Comma,
    /// `.`
    Dot,
    /// `?`
    Question,
    /// `~`
    Tilde,
    /// `!`
    Not,
    /// `+`
    Plus,
    /// `-`
    Minus,
    /// `*`
    Star,
    /// `/`
    Slash,
    /// `%`
    Percent,
    /// `<`
    Less,
    /// `>`
    Greater,
    /// `=`
    Assign,
    /// `&`
    And,
    /// `|`
    Or,
    /// `^`
    Xor,
}
