ghost use Rattle.std.specs.Prelude.{◌≡◌, ◌≢◌, ◌<◌, ◌≤◌, ◌^◌, ◌+◌, List, drop, length, IfOk, IfSome, None, Some, ⊤};
ghost use Rattle.std.specs.List.{prefix_len};
ghost use Rattle.co_first_parse.specs.Lex as spec;
ghost use Rattle.co_first_parse.specs.Spelling.{Spells, first_place, is_letter, is_digit, goes_on};
ghost use Rattle.co_first_parse.specs.declared.token.Token.{Token};

use crate::fault::ParseFault;
use crate::token::{Kind, Mark, Token};
use crate::words::{punctuator, word_kind};
use co_base::Span;
use sqlite_items::Items;
use std::alloc::Global;

/// The most bytes that a file has.
pub const MAX_BYTES: usize = 1_048_576;

const INT_LIMIT: u64 = 1 << 31;

fn letter(byte: u8) -> bool
    ensures { result ≡ is_letter byte }
{
    b'a' <= byte && byte <= b'z'
}

fn digit(byte: u8) -> bool
    ensures { result ≡ is_digit byte }
{
    b'0' <= byte && byte <= b'9'
}

/// Whether an identifier may go on with the byte [lex.name].
fn is_inner(byte: u8) -> bool
    ensures { result ≡ goes_on byte }
{
    letter(byte) || (b'A' <= byte && byte <= b'Z') || digit(byte) || byte == b'_'
}

fn letters(bytes: &[u8]) -> usize
    ensures value { result ≡ prefix_len is_letter bytes.now }
    ensures within { result ≤ length bytes.now }
{
    bytes.iter().take_while(|byte| letter(**byte)).count()
}

fn digits(bytes: &[u8]) -> usize
    ensures value { result ≡ prefix_len is_digit bytes.now }
    ensures within { result ≤ length bytes.now }
{
    bytes.iter().take_while(|byte| digit(**byte)).count()
}

fn ends(bytes: &[u8]) -> bool
    ensures { result ≡ spec.ends bytes.now }
{
    match bytes {
        [] => true,
        [byte, ..] => !is_inner(*byte),
    }
}

#[tactic(auto, unfolding(crate::specs::Lex::word_token))]
fn word_token(alloc: Global, bytes: &[u8]) -> Result<(Kind, usize), ParseFault>
    ensures ok { IfOk result (λ token. spec.word_token bytes.now ≡ Some token) }
    ensures refused { result ≡ Err ParseFault.Syntax → spec.word_token bytes.now ≡ None }
{
    let size = letters(bytes);
    let (word, next) = bytes.split_at(size);
    if !ends(next) {
        return Err(ParseFault::Syntax);
    }
    let kind = word_kind(alloc, word)?;
    Ok((kind, size))
}

fn value(digits: &[u8]) -> Option<u32>
    ensures { result ≡ spec.value_from 0 digits.now }
{
    let mut value: u64 = 0;
    let mut rest = digits;
    while let [digit, next @ ..] = rest {
        value = value * 10 + u64::from(digit.saturating_sub(48));
        if INT_LIMIT <= value {
            return None;
        }
        rest = next;
    }
    Some(value as u32)
}

fn is_plain(digits: &[u8]) -> bool
    ensures { result ≡ spec.is_plain digits.now }
{
    match digits {
        [] => false,
        [_] => true,
        [first, ..] => *first != b'0',
    }
}

#[tactic(auto, unfolding(crate::specs::Lex::number))]
fn number(digits: &[u8]) -> Option<u32>
    ensures { result ≡ spec.number digits.now }
{
    if is_plain(digits) {
        value(digits)
    } else {
        None
    }
}

#[tactic(auto, unfolding(crate::specs::Lex::number_token))]
fn number_token(bytes: &[u8]) -> Option<(Kind, usize)>
    ensures { result ≡ spec.number_token bytes.now }
{
    let size = digits(bytes);
    let (digits, next) = bytes.split_at(size);
    if !ends(next) {
        return None;
    }
    let value = number(digits)?;
    Some((Kind::Number(value), size))
}

fn begins_with(byte: u8, bytes: &[u8]) -> bool
    ensures { result ≡ spec.begins_with byte bytes.now }
{
    match bytes {
        [] => false,
        [first, ..] => *first == byte,
    }
}

#[tactic(auto, unfolding(crate::specs::Lex::punctuator_token))]
fn punctuator_token(byte: u8, next: &[u8]) -> Option<(Kind, usize)>
    ensures { result ≡ spec.punctuator_token byte next.now }
{
    if byte == b':' {
        return if begins_with(b':', next) {
            Some((Kind::Fixed(Mark::Scope), 2))
        } else {
            None
        };
    }
    let mark = punctuator(byte)?;
    Some((Kind::Fixed(mark), 1))
}

#[tactic(auto, unfolding(crate::specs::Lex::first_token))]
/// The kind and the length of the token at the front.
fn first_token(alloc: Global, bytes: &[u8]) -> Result<(Kind, usize), ParseFault>
    ensures ok { IfOk result (λ token. spec.first_token bytes.now ≡ Some token) }
    ensures refused { result ≡ Err ParseFault.Syntax → spec.first_token bytes.now ≡ None }
{
    let [byte, next @ ..] = bytes else {
        return Err(ParseFault::Syntax);
    };
    if letter(*byte) {
        return word_token(alloc, bytes);
    }
    let found = if digit(*byte) {
        number_token(bytes)
    } else {
        punctuator_token(*byte, next)
    };
    found.ok_or(ParseFault::Syntax)
}

fn blank(at: Span, byte: u8) -> Option<Span>
    requires { at.line + at.col < 2 ^ 21 }
    ensures { result ≡ spec.blank at byte }
{
    match byte {
        b' ' => Some(Span {
            line: at.line,
            col: at.col + 1,
        }),
        b'\n' => Some(Span {
            line: at.line + 1,
            col: 1,
        }),
        _ => None,
    }
}

fn after(bytes: &[u8], size: usize) -> &[u8]
    requires { size ≤ length bytes.now }
    ensures { result.now ≡ drop size bytes.now }
{
    &bytes[size..]
}

/// The tokens of a file of at most `MAX_BYTES` bytes, with the place of each.
pub fn lex(alloc: Global, bytes: &[u8]) -> Result<Items<Token>, ParseFault>
    requires { length bytes.now ≤ 2 ^ 20 }
    ensures ok { IfOk result (λ tokens. Spells first_place bytes.now tokens) }
    ensures refused { result ≡ Err ParseFault.Syntax → (tokens : List Token) → Spells first_place bytes.now tokens → ⊥ }
{
    let mut tokens = Items::new(alloc);
    let mut at = Span { line: 1, col: 1 };
    let mut rest = bytes;
    while let Some(byte) = rest.first() {
        if let Some(next) = blank(at, *byte) {
            at = next;
            rest = after(rest, 1);
            continue;
        }
        let (kind, size) = first_token(alloc, rest)?;
        tokens.push(Token { kind, span: at })?;
        at = Span {
            line: at.line,
            col: at.col + size as u32,
        };
        rest = after(rest, size);
    }
    Ok(tokens)
}
