ghost use Rattle.std.specs.Prelude.{◌≡◌, length, IfOk, IsErr, None, Some};
ghost use Rattle.co_reader.specs.Reading as spec;
ghost use Rattle.co_reader.specs.Reading.{Reads};

use crate::fault::ReadFault;
use crate::lead::Lead;
use co_base::{Span, Text};
use co_lex::{Mark, Token, TokenKind, Word};
use std::marker::Model;

/// The tokens that are left.
#[derive(Drop)]
pub struct Cursor<'a> {
    tokens: &'a [Token],
}

impl<'a> Model for Cursor<'a> {
    ghost use Rattle.std.specs.Prelude.{List};
    ghost use Rattle.co_lex.specs.declared.token.Token.{Token};

    ghost Value = { List Token };

    ghost view = { λ c. c.tokens.now };
}

fn lead_of(kind: &TokenKind) -> Lead
    ensures { result ≡ spec.lead_of kind.now }
{
    match kind {
        TokenKind::Name(_) => Lead::Name,
        TokenKind::Word(word) => Lead::Word(*word),
        TokenKind::Int(num, value) => Lead::Int(*num, *value),
        TokenKind::Lit(_) => Lead::Text,
        TokenKind::Mark(mark) => Lead::Mark(*mark),
        TokenKind::End => Lead::End,
    }
}

fn lead(tokens: &[Token]) -> Lead
    ensures { result ≡ spec.lead tokens.now }
{
    match tokens {
        [] => Lead::End,
        [token, ..] => lead_of(&token.kind),
    }
}

fn is_mark(mark: Mark, lead: Lead) -> bool
    ensures { result ≡ spec.is_mark mark lead }
{
    match lead {
        Lead::Mark(other) => other == mark,
        _ => false,
    }
}

fn is_word(word: Word, lead: Lead) -> bool
    ensures { result ≡ spec.is_word word lead }
{
    match lead {
        Lead::Word(other) => other == word,
        _ => false,
    }
}

fn is_text(text: &[u8], kind: &TokenKind) -> bool
    ensures { result ≡ spec.is_text text.now kind.now }
{
    match kind {
        TokenKind::Name(other) => other.as_slice() == text,
        _ => false,
    }
}

/// Whether a file may declare the name: any but `std` and `corun`.
#[tactic(auto, unfolding(crate::specs::Reading::is_name))]
pub fn is_name(text: &[u8]) -> bool
    ensures { result ≡ spec.is_name text.now }
{
    !(text == b"std".as_slice()) && !(text == b"corun".as_slice())
}

impl<'a> Cursor<'a> {
    pub fn new(tokens: &'a [Token]) -> Cursor<'a>
        ensures { result ≡ tokens.now }
    {
        Cursor { tokens }
    }

    /// How many tokens are left.
    pub fn left(&self) -> usize
        ensures { result ≡ length self.now }
    {
        self.tokens.len()
    }

    /// What the next token is; `End` where there is none.
    pub fn lead(&self) -> Lead
        ensures { result ≡ spec.lead self.now }
    {
        lead(self.tokens)
    }

    /// What the token after the next is.
    pub fn lead_after(&self) -> Lead
        ensures { result ≡ spec.lead_after self.now }
    {
        match self.tokens {
            [] => Lead::End,
            [_, rest @ ..] => lead(rest),
        }
    }

    /// The place of the next token; 0:0 where there is none.
    pub fn place(&self) -> Span
        ensures { result ≡ spec.place self.now }
    {
        match self.tokens {
            [] => Span { line: 0, col: 0 },
            [token, ..] => token.span,
        }
    }

    /// Passes over the next token.
    pub fn pass(&mut self)
        ensures { self.new ≡ spec.rest self.old }
    {
        if let [_, rest @ ..] = self.tokens {
            self.tokens = rest;
        }
    }

    #[tactic(auto, unfolding(crate::specs::Reading::sees))]
    pub fn sees(&self, mark: Mark) -> bool
        ensures { result ≡ spec.sees mark self.now }
    {
        is_mark(mark, self.lead())
    }

    /// Takes the mark, if it comes next.
    #[tactic(auto, unfolding(crate::specs::Reading::after))]
    pub fn eat(&mut self, mark: Mark) -> bool
        ensures found { result ≡ spec.sees mark self.old }
        ensures after { self.new ≡ spec.after mark self.old }
    {
        let found = self.sees(mark);
        if found {
            self.pass();
        }
        found
    }

    #[tactic(auto, unfolding(crate::specs::Reading::expect))]
    pub fn expect(&mut self, mark: Mark) -> Result<(), ReadFault>
        ensures { Reads (spec.expect mark self.old) result self.new }
    {
        if self.sees(mark) {
            self.pass();
            Ok(())
        } else {
            Err(ReadFault::Refused)
        }
    }

    #[tactic(auto, unfolding(crate::specs::Reading::sees_word))]
    pub fn sees_word(&self, word: Word) -> bool
        ensures { result ≡ spec.sees_word word self.now }
    {
        is_word(word, self.lead())
    }

    /// Takes the word, if it comes next.
    #[tactic(auto, unfolding(crate::specs::Reading::after_word))]
    pub fn eat_word(&mut self, word: Word) -> bool
        ensures found { result ≡ spec.sees_word word self.old }
        ensures after { self.new ≡ spec.after_word word self.old }
    {
        let found = self.sees_word(word);
        if found {
            self.pass();
        }
        found
    }

    #[tactic(auto, unfolding(crate::specs::Reading::expect_word))]
    pub fn expect_word(&mut self, word: Word) -> Result<(), ReadFault>
        ensures { Reads (spec.expect_word word self.old) result self.new }
    {
        if self.sees_word(word) {
            self.pass();
            Ok(())
        } else {
            Err(ReadFault::Refused)
        }
    }

    /// Whether the next token is the name `text`.
    #[tactic(auto, unfolding(crate::specs::Reading::spells))]
    pub fn spells(&self, text: &[u8]) -> bool
        ensures { result ≡ spec.spells text.now self.now }
    {
        match self.tokens {
            [] => false,
            [token, ..] => is_text(text, &token.kind),
        }
    }

    /// Takes the name that comes next, whichever it is.
    #[tactic(auto, unfolding(crate::specs::Reading::any_name))]
    pub fn any_name(&mut self) -> Result<&'a [u8], ReadFault>
        ensures name { IfOk result (λ name. spec.any_name self.old ≡ Some (name.now, self.new)) }
        ensures refused { IsErr result → spec.any_name self.old ≡ None }
    {
        let [token, rest @ ..] = self.tokens else {
            return Err(ReadFault::Refused);
        };
        match &token.kind {
            TokenKind::Name(text) => {
                self.tokens = rest;
                Ok(text.as_slice())
            }
            _ => Err(ReadFault::Refused),
        }
    }

    /// Takes a name that a file may declare.
    #[tactic(auto, unfolding(crate::specs::Reading::name, crate::specs::Reading::any_name))]
    pub fn name(&mut self) -> Result<Text, ReadFault>
        ensures { Reads (spec.name self.old) result self.new }
    {
        let [token, rest @ ..] = self.tokens else {
            return Err(ReadFault::Refused);
        };
        match &token.kind {
            TokenKind::Name(text) => {
                if !is_name(text.as_slice()) {
                    return Err(ReadFault::Refused);
                }
                self.tokens = rest;
                Ok(text.copy()?)
            }
            _ => Err(ReadFault::Refused),
        }
    }

    /// Takes a text literal.
    #[tactic(auto, unfolding(crate::specs::Reading::text_literal))]
    pub fn text_literal(&mut self) -> Result<Text, ReadFault>
        ensures { Reads (spec.text_literal self.old) result self.new }
    {
        let [token, rest @ ..] = self.tokens else {
            return Err(ReadFault::Refused);
        };
        match &token.kind {
            TokenKind::Lit(text) => {
                self.tokens = rest;
                Ok(text.copy()?)
            }
            _ => Err(ReadFault::Refused),
        }
    }
}
