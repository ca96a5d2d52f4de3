ghost use Rattle.std.specs.Prelude.{◌≡◌, ◌+◌, ◌<◌, ◌≤◌, ◌^◌, false, length, slice_index, IfOk, IfSome};
ghost use Rattle.co_lex.specs.Scan as spec;
ghost use Rattle.co_lex.specs.Table.{word_of as word_of_name};

use crate::table::word_of;
use crate::token::TokenKind;
use co_base::{NoMemory, Num, Text};
use std::alloc::Global;

/// The greatest number that may be written: 2^63 - 1.
const GREATEST: u64 = 9223372036854775807;

/// A set of bytes.
#[derive(Clone, Copy, Debug)]
pub enum Class {
    /// A letter, a digit or `_`.
    Name,
    Digit,
    /// What may not stand right after a number: a letter, a digit, `_` or `'`.
    Number,
    /// Any byte but a line feed.
    Line,
}

/// What a byte can begin.
#[derive(Clone, Copy, Debug)]
pub enum Start {
    /// White space but a line feed.
    Blank,
    /// A line feed.
    Feed,
    /// A name or a word.
    Letter,
    /// A number.
    Digit,
    /// A text literal.
    Quote,
    /// A comment or a mark.
    Slash,
    /// A directive.
    Hash,
    /// A mark, or nothing.
    Other,
}

fn is_blank(b: u8) -> bool
    ensures { result ≡ spec.is_blank b }
{
    b == b' ' || (b == b'\t' || (11 <= b && b <= 13))
}

fn is_letter(b: u8) -> bool
    ensures { result ≡ spec.is_letter b }
{
    b.is_ascii_alphabetic() || b == b'_'
}

fn is_in(class: Class, b: u8) -> bool
    ensures { result ≡ spec.is_in class b }
{
    match class {
        Class::Name => b.is_ascii_alphanumeric() || b == b'_',
        Class::Digit => b.is_ascii_digit(),
        Class::Number => b.is_ascii_alphanumeric() || (b == b'_' || b == b'\''),
        Class::Line => !(b == b'\n'),
    }
}

pub fn begins(b: u8) -> Start
    ensures { result ≡ spec.begins b }
{
    if is_blank(b) {
        Start::Blank
    } else if b == b'\n' {
        Start::Feed
    } else if is_letter(b) {
        Start::Letter
    } else if b.is_ascii_digit() {
        Start::Digit
    } else if b == b'"' {
        Start::Quote
    } else if b == b'/' {
        Start::Slash
    } else if b == b'#' {
        Start::Hash
    } else {
        Start::Other
    }
}

/// The byte at `at`, or 0 past the end.
pub fn byte(z: &[u8], at: usize) -> u8
    ensures value { result ≡ slice_index z.now at }
    ensures within { 0 < result → at < length z.now }
{
    if at < z.len() { z[at] } else { 0 }
}

/// How many bytes of the class the bytes begin with.
pub fn run(class: Class, z: &[u8]) -> usize
    ensures value { result ≡ spec.run class z.now }
    ensures within { result ≤ length z.now }
{
    let mut n = 0;
    while n < z.len() && is_in(class, z[n]) {
        n += 1;
    }
    n
}

/// How many bytes stand before the first `*/`, or are there where it doesn't come.
pub fn comment_len(z: &[u8]) -> usize
    ensures value { result ≡ spec.comment_len z.now }
    ensures within { result ≤ length z.now }
    ensures closed { result < length z.now → result + 2 ≤ length z.now }
{
    for (at, b) in z.iter().enumerate() {
        if *b == b'*' && byte(z, at + 1) == b'/' {
            return at;
        }
    }
    z.len()
}

fn value_of(digits: &[u8]) -> Option<u64>
    ensures value { result ≡ spec.value_of digits.now }
    ensures bound { IfSome result (λ n. n < 2 ^ 63) }
{
    let mut value: u64 = 0;
    for b in digits {
        let digit = u64::from(b.saturating_sub(b'0'));
        if value > (GREATEST - digit) / 10 {
            return None;
        }
        value = 10 * value + digit;
    }
    Some(value)
}

fn suffix_num(value: u64, suffix: &[u8]) -> Option<Num>
    ensures { result ≡ spec.suffix_num value suffix.now }
{
    match suffix {
        [] if value <= 2147483647 => Some(Num::Int),
        [] => Some(Num::Long),
        [b'L' | b'l'] => Some(Num::Long),
        [b'U', b'L'] => Some(Num::Size),
        [b'u', b'l'] => Some(Num::Size),
        _ => None,
    }
}

/// The type and the value of the number that all of the bytes spell [lex.icon].
pub fn number_of(s: &[u8]) -> Option<(Num, i64)>
    ensures { result ≡ spec.number_of s.now }
{
    let digits = run(Class::Digit, s);
    if 1 < digits && byte(s, 0) == b'0' {
        return None;
    }
    let value = value_of(&s[..digits])?;
    let num = suffix_num(value, &s[digits..])?;
    Some((num, value as i64))
}

/// How many bytes of a text literal, without its first `"`, stand before the closing one, or where it doesn't come, before
/// the line feed or the end.
pub fn literal_len(z: &[u8]) -> usize
    ensures value { result ≡ spec.literal_len false z.now }
    ensures within { result ≤ length z.now }
{
    let mut is_escaped = false;
    let mut n = 0;
    while n < z.len() {
        let b = z[n];
        if b == b'\n' || (!is_escaped && b == b'"') {
            return n;
        }
        is_escaped = !is_escaped && b == b'\\';
        n += 1;
    }
    n
}

fn is_good(b: u8, next: u8) -> bool
    ensures { result ≡ spec.is_good b next }
{
    if b == b'\\' {
        next == b'"' || next == b'\\'
    } else {
        32 <= b && b <= 126
    }
}

/// How many bytes stand before the first byte or escape that may not stand in a text literal.
pub fn good_len(z: &[u8]) -> usize
    ensures value { result ≡ spec.good_len false z.now }
    ensures within { result ≤ length z.now }
{
    let mut is_escaped = false;
    let mut n = 0;
    while n < z.len() {
        let b = z[n];
        if !is_escaped && !is_good(b, byte(z, n + 1)) {
            return n;
        }
        is_escaped = !is_escaped && b == b'\\';
        n += 1;
    }
    n
}

/// What the bytes of a text literal stand for [lex.string].
pub fn text_of(alloc: Global, z: &[u8]) -> Result<Text, NoMemory>
    ensures { IfOk result (λ text. text ≡ spec.text_of false z.now) }
{
    let mut text = Text::new(alloc);
    let mut is_escaped = false;
    for b in z {
        if !is_escaped && *b == b'\\' {
            is_escaped = true;
        } else {
            text.push(*b)?;
            is_escaped = false;
        }
    }
    Ok(text)
}

/// The word or the name that is spelled so [lex.name].
pub fn kind_of(alloc: Global, name: &[u8]) -> Result<TokenKind, NoMemory>
    ensures { IfOk result (λ kind. kind ≡ spec.kind_of name.now (word_of_name name.now)) }
{
    match word_of(name) {
        Some(word) => Ok(TokenKind::Word(word)),
        None => Ok(TokenKind::Name(Text::from_slice(alloc, name)?)),
    }
}
