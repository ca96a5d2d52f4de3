ghost use Rattle.std.specs.Prelude.{◌≡◌};
ghost use Rattle.co_lex.specs.Texts as spec;
ghost use Rattle.co_print.specs.Spelling.{suffix};

use co_base::Num;
use co_lex::{Mark, Word};

/// The spelling of a keyword [lex.key].
pub fn word_text(word: Word) -> &'static [u8]
    ensures { result.now ≡ spec.word_text word }
{
    match word {
        Word::Auto => b"auto",
        Word::Bool => b"bool",
        Word::Break => b"break",
        Word::Catch => b"catch",
        Word::Class => b"class",
        Word::CoAwait => b"co_await",
        Word::CoReturn => b"co_return",
        Word::CoYield => b"co_yield",
        Word::Const => b"const",
        Word::Continue => b"continue",
        Word::Default => b"default",
        Word::Delete => b"delete",
        Word::Else => b"else",
        Word::Explicit => b"explicit",
        Word::False => b"false",
        Word::For => b"for",
        Word::If => b"if",
        Word::Inline => b"inline",
        Word::Int => b"int",
        Word::Long => b"long",
        Word::New => b"new",
        Word::Noexcept => b"noexcept",
        Word::Nullptr => b"nullptr",
        Word::Operator => b"operator",
        Word::Private => b"private",
        Word::Protected => b"protected",
        Word::Public => b"public",
        Word::Return => b"return",
        Word::Static => b"static",
        Word::StaticCast => b"static_cast",
        Word::Struct => b"struct",
        Word::This => b"this",
        Word::Throw => b"throw",
        Word::True => b"true",
        Word::Try => b"try",
        Word::Using => b"using",
        Word::Void => b"void",
        Word::While => b"while",
        Word::Alignas => b"alignas",
        Word::Alignof => b"alignof",
        Word::Case => b"case",
        Word::Char => b"char",
        Word::Concept => b"concept",
        Word::ConstCast => b"const_cast",
        Word::Consteval => b"consteval",
        Word::Constexpr => b"constexpr",
        Word::Constinit => b"constinit",
        Word::Decltype => b"decltype",
        Word::Do => b"do",
        Word::Double => b"double",
        Word::DynamicCast => b"dynamic_cast",
        Word::Enum => b"enum",
        Word::Export => b"export",
        Word::Extern => b"extern",
        Word::Float => b"float",
        Word::Friend => b"friend",
        Word::Goto => b"goto",
        Word::Mutable => b"mutable",
        Word::Namespace => b"namespace",
        Word::ReinterpretCast => b"reinterpret_cast",
        Word::Requires => b"requires",
        Word::Short => b"short",
        Word::Signed => b"signed",
        Word::Sizeof => b"sizeof",
        Word::StaticAssert => b"static_assert",
        Word::Switch => b"switch",
        Word::Template => b"template",
        Word::ThreadLocal => b"thread_local",
        Word::Typedef => b"typedef",
        Word::Typeid => b"typeid",
        Word::Typename => b"typename",
        Word::Union => b"union",
        Word::Unsigned => b"unsigned",
        Word::Virtual => b"virtual",
        Word::Volatile => b"volatile",
    }
}

/// The spelling of an operator or a punctuator [lex.operators].
pub fn mark_text(mark: Mark) -> &'static [u8]
    ensures { result.now ≡ spec.mark_text mark }
{
    match mark {
        Mark::ShlAssign => b"<<=",
        Mark::ShrAssign => b">>=",
        Mark::Ellipsis => b"...",
        Mark::Scope => b"::",
        Mark::Arrow => b"->",
        Mark::Increment => b"++",
        Mark::Decrement => b"--",
        Mark::Shl => b"<<",
        Mark::Shr => b">>",
        Mark::LessEqual => b"<=",
        Mark::GreaterEqual => b">=",
        Mark::Equal => b"==",
        Mark::NotEqual => b"!=",
        Mark::AndAnd => b"&&",
        Mark::OrOr => b"||",
        Mark::AddAssign => b"+=",
        Mark::SubAssign => b"-=",
        Mark::MulAssign => b"*=",
        Mark::DivAssign => b"/=",
        Mark::RemAssign => b"%=",
        Mark::AndAssign => b"&=",
        Mark::OrAssign => b"|=",
        Mark::XorAssign => b"^=",
        Mark::OpenBrace => b"{",
        Mark::CloseBrace => b"}",
        Mark::OpenParen => b"(",
        Mark::CloseParen => b")",
        Mark::Semicolon => b";",
        Mark::Colon => b":",
        Mark::Comma => b",",
        Mark::Dot => b".",
        Mark::Question => b"?",
        Mark::Tilde => b"~",
        Mark::Not => b"!",
        Mark::Plus => b"+",
        Mark::Minus => b"-",
        Mark::Star => b"*",
        Mark::Slash => b"/",
        Mark::Percent => b"%",
        Mark::Less => b"<",
        Mark::Greater => b">",
        Mark::Assign => b"=",
        Mark::And => b"&",
        Mark::Or => b"|",
        Mark::Xor => b"^",
    }
}

/// The suffix of a number of this type.
pub fn suffix(num: Num) -> &'static [u8]
    ensures { result.now ≡ suffix num }
{
    match num {
        Num::Bool => b"",
        Num::Int => b"",
        Num::Long => b"L",
        Num::Size => b"UL",
    }
}
