ghost use Rattle.std.specs.Prelude.{◌≡◌, map, IfOk, None, Some, bytes_eq};
ghost use Rattle.std.specs.List.{list_any};
ghost use Rattle.co_first_parse.specs.Lex as spec;

use crate::fault::ParseFault;
use crate::token::{Kind, Mark};
use co_base::Text;
use std::alloc::Global;

const KEYWORDS: [(&[u8], Mark); 6] = [
    (b"int", Mark::Int),
    (b"main", Mark::Main),
    (b"return", Mark::Return),
    (b"long", Mark::Long),
    (b"while", Mark::While),
    (b"corun", Mark::Corun),
];

const PUNCTUATORS: [(&[u8], Mark); 8] = [
    (b"(", Mark::OpenParenthesis),
    (b")", Mark::CloseParenthesis),
    (b"{", Mark::OpenBrace),
    (b"}", Mark::CloseBrace),
    (b";", Mark::Semicolon),
    (b"=", Mark::Assign),
    (b"+", Mark::Plus),
    (b"-", Mark::Minus),
];

/// The words that are no names of variables.
const RESERVED: [&[u8]; 69] = [
    b"auto",
    b"bool",
    b"break",
    b"catch",
    b"class",
    b"const",
    b"continue",
    b"default",
    b"delete",
    b"else",
    b"explicit",
    b"false",
    b"for",
    b"if",
    b"inline",
    b"int",
    b"long",
    b"new",
    b"noexcept",
    b"nullptr",
    b"operator",
    b"private",
    b"protected",
    b"public",
    b"return",
    b"static",
    b"struct",
    b"this",
    b"throw",
    b"true",
    b"try",
    b"using",
    b"void",
    b"while",
    b"alignas",
    b"alignof",
    b"case",
    b"char",
    b"concept",
    b"consteval",
    b"constexpr",
    b"constinit",
    b"decltype",
    b"do",
    b"double",
    b"enum",
    b"export",
    b"extern",
    b"float",
    b"friend",
    b"goto",
    b"mutable",
    b"namespace",
    b"requires",
    b"short",
    b"signed",
    b"sizeof",
    b"switch",
    b"template",
    b"typedef",
    b"typeid",
    b"typename",
    b"union",
    b"unsigned",
    b"virtual",
    b"volatile",
    b"std",
    b"corun",
    b"main",
];

fn lookup(mut table: &[(&[u8], Mark)], word: &[u8]) -> Option<Mark>
    ensures { result ≡ spec.lookup (map (λ entry. (entry.0.now, entry.1)) table.entry.now) word.now }
{
    while let [entry, rest @ ..] = table {
        if entry.0 == word {
            return Some(entry.1);
        }
        table = rest;
    }
    None
}

#[tactic(auto, unfolding(crate::specs::Lex::keyword))]
fn keyword(word: &[u8]) -> Option<Mark>
    ensures { result ≡ spec.keyword word.now }
{
    lookup(&KEYWORDS, word)
}

#[tactic(auto, unfolding(crate::specs::Lex::punctuator))]
pub fn punctuator(byte: u8) -> Option<Mark>
    ensures { result ≡ spec.punctuator byte }
{
    lookup(&PUNCTUATORS, &[byte])
}

fn is_one_of(mut table: &[&[u8]], word: &[u8]) -> bool
    ensures { result ≡ list_any (λ other. bytes_eq other word.now) (map (λ other. other.now) table.entry.now) }
{
    while let [other, rest @ ..] = table {
        if *other == word {
            return true;
        }
        table = rest;
    }
    false
}

#[tactic(auto, unfolding(crate::specs::Lex::is_reserved))]
fn is_reserved(word: &[u8]) -> bool
    ensures { result ≡ spec.is_reserved word.now }
{
    is_one_of(&RESERVED, word)
}

/// What the word is; a reserved word that is no keyword of the form is refused.
#[tactic(auto, unfolding(crate::specs::Lex::word_kind))]
pub fn word_kind(alloc: Global, word: &[u8]) -> Result<Kind, ParseFault>
    ensures ok { IfOk result (λ kind. spec.word_kind word.now ≡ Some kind) }
    ensures refused { result ≡ Err ParseFault.Syntax → spec.word_kind word.now ≡ None }
{
    if let Some(mark) = keyword(word) {
        return Ok(Kind::Fixed(mark));
    }
    if is_reserved(word) {
        return Err(ParseFault::Syntax);
    }
    let name = Text::from_slice(alloc, word)?;
    Ok(Kind::Name(name))
}
