ghost use Rattle.std.specs.Prelude.{◌≡◌, ◌≢◌, ◌+◌, ◌<◌, ◌≤◌, ◌^◌, ◌++◌, true, Some, None, Ok, length, slice_index, IfOk, IfErr, OnOk};
ghost use Rattle.co_lex.specs.Lexer as spec;

use crate::fault::LexFault;
use crate::place::position_after;
use crate::scan::{
    Class, Start, begins, byte, comment_len, good_len, kind_of, literal_len, number_of, run,
    text_of,
};
use crate::table::{header_len, mark_of};
use crate::token::{Token, TokenKind};
use co_base::Span;
use sqlite_items::Items;
use std::alloc::Global;

/// What stands on a line so far.
#[derive(Clone, Copy, Debug)]
pub enum Line {
    /// White space alone.
    Blank,
    /// A token.
    Begun,
    /// `#include`, whose `#` is at this place, and not yet its header.
    Include(Span),
    /// `#include` and its header.
    Included(Span),
}

/// White space, a part of a directive, or a token; its length in bytes, at least 1; and what stands on the line after it.
#[derive(Debug, Drop)]
pub struct Piece {
    token: Option<TokenKind>,
    len: usize,
    line: Line,
}

fn space(line: Line, len: usize) -> Result<Piece, LexFault>
    ensures { result ≡ spec.space line len }
{
    Ok(Piece {
        token: None,
        len,
        line,
    })
}

fn token(kind: TokenKind, len: usize) -> Result<Piece, LexFault>
    ensures { result ≡ spec.token kind len }
{
    Ok(Piece {
        token: Some(kind),
        len,
        line: Line::Begun,
    })
}

fn line_feed(line: Line) -> Result<Piece, LexFault>
    ensures value { spec.Gives result (spec.line_feed line) }
    ensures within { IfOk result (λ p. p.len ≡ 1) }
{
    match line {
        Line::Include(hash) => Err(LexFault::BadDirective(hash)),
        _ => space(Line::Blank, 1),
    }
}

fn has_feed(bytes: &[u8]) -> bool
    ensures { result ≡ spec.has_feed bytes.now }
{
    run(Class::Line, bytes) < bytes.len()
}

fn line_after(line: Line, has_ended: bool) -> Line
    ensures { result ≡ spec.line_after line has_ended }
{
    match line {
        Line::Begun if has_ended => Line::Blank,
        _ => line,
    }
}

fn block_comment(line: Line, at: Span, z: &[u8]) -> Result<Piece, LexFault>
    requires { 1 < length z.now }
    ensures value { spec.Gives result (spec.block_comment line at z.now) }
    ensures within { IfOk result (λ p. (1 ≤ p.len) × (p.len ≤ length z.now)) }
{
    let n = comment_len(&z[2..]);
    if n + 2 < z.len() {
        space(line_after(line, has_feed(&z[..n + 4])), n + 4)
    } else {
        Err(LexFault::Unfinished(at))
    }
}

fn name(alloc: Global, z: &[u8]) -> Result<Piece, LexFault>
    requires { Start.Letter ≡ spec.start_of z.now }
    ensures value { spec.Gives result (spec.name z.now) }
    ensures within { IfOk result (λ p. (1 ≤ p.len) × (p.len ≤ length z.now)) }
{
    let n = run(Class::Name, z);
    token(kind_of(alloc, &z[..n])?, n)
}

fn number(at: Span, z: &[u8]) -> Result<Piece, LexFault>
    requires { Start.Digit ≡ spec.start_of z.now }
    ensures value { spec.Gives result (spec.number at z.now) }
    ensures within { IfOk result (λ p. (1 ≤ p.len) × (p.len ≤ length z.now)) }
{
    let n = run(Class::Number, z);
    match number_of(&z[..n]) {
        None => Err(LexFault::BadNumber(at)),
        Some((num, value)) => token(TokenKind::Int(num, value), n),
    }
}

fn literal(alloc: Global, at: Span, z: &[u8]) -> Result<Piece, LexFault>
    requires some { 0 < length z.now }
    requires begun { 1 ≤ at.col }
    requires room { at.line + at.col + length z.now < 2 ^ 32 }
    ensures value { spec.Gives result (spec.literal at z.now) }
    ensures within { IfOk result (λ p. (1 ≤ p.len) × (p.len ≤ length z.now)) }
{
    let n = literal_len(&z[1..]);
    if byte(z, n + 1) != b'"' {
        return Err(LexFault::Unfinished(at));
    }
    let body = &z[1..n + 1];
    let good = good_len(body);
    if good < n {
        return Err(LexFault::BadByte(position_after(at, &z[..good + 1])));
    }
    token(TokenKind::Lit(text_of(alloc, body)?), n + 2)
}

fn mark(at: Span, z: &[u8]) -> Result<Piece, LexFault>
    ensures value { spec.Gives result (spec.mark at z.now) }
    ensures within { IfOk result (λ p. (1 ≤ p.len) × (p.len ≤ length z.now)) }
{
    match mark_of(z) {
        None => Err(LexFault::BadByte(at)),
        Some((mark, n)) => token(TokenKind::Mark(mark), n),
    }
}

fn include(at: Span, z: &[u8]) -> Result<Piece, LexFault>
    ensures value { spec.Gives result (spec.include at z.now) }
    ensures within { IfOk result (λ p. (1 ≤ p.len) × (p.len ≤ length z.now)) }
{
    if z.starts_with(b"#include") {
        space(Line::Include(at), 8)
    } else {
        Err(LexFault::BadDirective(at))
    }
}

fn header(hash: Span, z: &[u8]) -> Result<Piece, LexFault>
    ensures value { spec.Gives result (spec.header hash z.now) }
    ensures within { IfOk result (λ p. (1 ≤ p.len) × (p.len ≤ length z.now)) }
{
    let n = header_len(z);
    if n == 0 {
        Err(LexFault::BadDirective(hash))
    } else {
        space(Line::Included(hash), n)
    }
}

fn lexeme(alloc: Global, start: Start, line: Line, at: Span, z: &[u8]) -> Result<Piece, LexFault>
    requires some { 0 < length z.now }
    requires first { start ≡ spec.start_of z.now }
    requires begun { 1 ≤ at.col }
    requires room { at.line + at.col + length z.now < 2 ^ 32 }
    ensures value { spec.Gives result (spec.lexeme start line at z.now) }
    ensures within { IfOk result (λ p. (1 ≤ p.len) × (p.len ≤ length z.now)) }
{
    match start {
        Start::Letter => name(alloc, z),
        Start::Digit => number(at, z),
        Start::Quote => literal(alloc, at, z),
        Start::Hash => match line {
            Line::Blank => include(at, z),
            _ => Err(LexFault::BadByte(at)),
        },
        _ => mark(at, z),
    }
}

fn solid(alloc: Global, start: Start, line: Line, at: Span, z: &[u8]) -> Result<Piece, LexFault>
    requires some { 0 < length z.now }
    requires first { start ≡ spec.start_of z.now }
    requires begun { 1 ≤ at.col }
    requires room { at.line + at.col + length z.now < 2 ^ 32 }
    ensures value { spec.Gives result (spec.solid start line at z.now) }
    ensures within { IfOk result (λ p. (1 ≤ p.len) × (p.len ≤ length z.now)) }
{
    match line {
        Line::Include(hash) => header(hash, z),
        Line::Included(hash) => Err(LexFault::BadDirective(hash)),
        _ => lexeme(alloc, start, line, at, z),
    }
}

fn slash(alloc: Global, line: Line, at: Span, z: &[u8]) -> Result<Piece, LexFault>
    requires some { 0 < length z.now }
    requires first { Start.Slash ≡ spec.start_of z.now }
    requires begun { 1 ≤ at.col }
    requires room { at.line + at.col + length z.now < 2 ^ 32 }
    ensures value { spec.Gives result (spec.slash (slice_index z.now 1) line at z.now) }
    ensures within { IfOk result (λ p. (1 ≤ p.len) × (p.len ≤ length z.now)) }
{
    match byte(z, 1) {
        b'/' => space(line, run(Class::Line, z)),
        b'*' => block_comment(line, at, z),
        _ => solid(alloc, Start::Slash, line, at, z),
    }
}

fn next(alloc: Global, line: Line, at: Span, z: &[u8]) -> Result<Piece, LexFault>
    requires some { 0 < length z.now }
    requires begun { 1 ≤ at.col }
    requires room { at.line + at.col + length z.now < 2 ^ 32 }
    ensures value { spec.Gives result (spec.next line at z.now) }
    ensures within { IfOk result (λ p. (1 ≤ p.len) × (p.len ≤ length z.now)) }
{
    let start = begins(z[0]);
    match start {
        Start::Blank => space(line, 1),
        Start::Feed => line_feed(line),
        Start::Slash => slash(alloc, line, at, z),
        _ => solid(alloc, start, line, at, z),
    }
}

fn finish(mut tokens: Items<Token>, line: Line, at: Span) -> Result<Items<Token>, LexFault>
    ensures { spec.Gives result (spec.with_front tokens (spec.finish line at)) }
{
    if let Line::Include(hash) = line {
        return Err(LexFault::BadDirective(hash));
    }
    tokens.push(Token {
        kind: TokenKind::End,
        span: at,
    })?;
    Ok(tokens)
}

fn put(tokens: &mut Items<Token>, at: Span, token: Option<TokenKind>) -> Result<(), LexFault>
    ensures ok { OnOk result (tokens.new ≡ tokens.old ++ spec.token_at at token) }
    ensures err { IfErr result (λ e. e ≡ LexFault.NoMemory) }
{
    if let Some(kind) = token {
        tokens.push(Token { kind, span: at })?;
    }
    Ok(())
}

/// The tokens of a source file, the last one `End` [lex.phases].
///
/// Comments, white space and `#include` lines give no token. Lines and columns are counted from 1, a column for each byte.
///
/// # Errors
///
/// The first place in the text that is refused decides: `BadByte`, `BadNumber`, `BadDirective` and `Unfinished`. `NoMemory`
/// where memory runs out.
pub fn lex(alloc: Global, bytes: &[u8]) -> Result<Items<Token>, LexFault>
    requires { length bytes.now ≤ 1048576 }
    ensures ok { IfOk result (λ tokens. spec.lexed bytes.now ≡ Ok tokens) }
    ensures err { IfErr result (λ fault. fault ≢ LexFault.NoMemory → spec.lexed bytes.now ≡ Err fault) }
{
    let mut tokens = Items::new(alloc);
    let mut line = Line::Blank;
    let mut at = Span { line: 1, col: 1 };
    let mut rest = bytes;
    while !rest.is_empty() {
        let piece = next(alloc, line, at, rest)?;
        put(&mut tokens, at, piece.token)?;
        at = position_after(at, &rest[..piece.len]);
        rest = &rest[piece.len..];
        line = piece.line;
    }
    finish(tokens, line, at)
}
