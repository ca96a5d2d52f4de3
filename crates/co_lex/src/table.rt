ghost use Rattle.std.specs.Prelude.{◌≡◌, ◌<◌, ◌≤◌, length, map, IfSome};
ghost use Rattle.co_lex.specs.Table as spec;

use crate::tables::{HEADERS, MARKS, WORDS};
use crate::token::{Mark, Word};

fn lookup(mut table: &[(&[u8], Word)], name: &[u8]) -> Option<Word>
    ensures { result ≡ spec.lookup (map (λ k. (k.0.now, k.1)) table.entry.now) name.now }
{
    while let [entry, rest @ ..] = table {
        if entry.0 == name {
            return Some(entry.1);
        }
        table = rest;
    }
    None
}

/// The word that a name spells.
pub fn word_of(name: &[u8]) -> Option<Word>
    ensures { result ≡ spec.word_of name.now }
{
    lookup(&WORDS, name)
}

fn front(mut table: &[(&[u8], Mark)], bytes: &[u8]) -> Option<(Mark, usize)>
    ensures value { result ≡ spec.front (map (λ k. (k.0.now, k.1)) table.entry.now) bytes.now }
    ensures within { IfSome result (λ m. m.1 ≤ length bytes.now) }
{
    while let [entry, rest @ ..] = table {
        if bytes.starts_with(entry.0) {
            return Some((entry.1, entry.0.len()));
        }
        table = rest;
    }
    None
}

/// The first mark of the table that the bytes begin with, and its length.
pub fn mark_of(bytes: &[u8]) -> Option<(Mark, usize)>
    ensures value { result ≡ spec.mark_of bytes.now }
    ensures within { IfSome result (λ m. m.1 ≤ length bytes.now) }
    ensures some { IfSome result (λ m. 1 ≤ m.1) }
{
    front(&MARKS, bytes)
}

fn front_len(mut table: &[&[u8]], bytes: &[u8]) -> usize
    ensures value { result ≡ spec.front_len (map (λ h. h.now) table.entry.now) bytes.now }
    ensures within { result ≤ length bytes.now }
{
    while let [entry, rest @ ..] = table {
        if bytes.starts_with(entry) {
            return entry.len();
        }
        table = rest;
    }
    0
}

/// The length of the header, with its delimiters, that the bytes begin with, or 0.
pub fn header_len(bytes: &[u8]) -> usize
    ensures value { result ≡ spec.header_len bytes.now }
    ensures within { result ≤ length bytes.now }
{
    front_len(&HEADERS, bytes)
}
