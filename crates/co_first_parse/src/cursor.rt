ghost use Rattle.std.specs.Prelude.{◌≡◌, ◌≤◌, ◌<◌, length, drop, slice_get, IfOk, IsErr, OnOk, OnSome, None, Some, ◌↔◌, IsTrue};
ghost use Rattle.std.specs.Option.{option_copied};
ghost use Rattle.co_first_parse.specs.Parse as spec;
ghost use Rattle.co_first_parse.specs.Place as place;

use crate::fault::ParseFault;
use crate::token::{Kind, Mark, Token};
use co_base::Text;
use std::marker::Model;

/// The tokens that are left.
#[derive(Drop)]
pub struct Cursor<'a> {
    rest: &'a [Token],
}

impl<'a> Model for Cursor<'a> {
    ghost use Rattle.std.specs.Prelude.{List};
    ghost use Rattle.co_first_parse.specs.declared.token.Token.{Token};

    ghost Value = { List Token };

    ghost view = { λ c. c.rest.now };
}

pub fn is_mark(kind: &Kind, mark: Mark) -> bool
    ensures { result ≡ spec.is_mark mark kind.now }
{
    match kind {
        Kind::Fixed(other) => *other as u8 == mark as u8,
        Kind::Name(_) => false,
        Kind::Number(_) => false,
    }
}

fn is_zero(kind: &Kind) -> bool
    ensures { result ≡ place.is_zero kind.now }
{
    match kind {
        Kind::Number(value) => *value == 0,
        Kind::Name(_) => false,
        Kind::Fixed(_) => false,
    }
}

fn from_second(tokens: &[Token]) -> &[Token]
    requires { 1 ≤ length tokens.now }
    ensures { result.now ≡ drop 1 tokens.now }
{
    &tokens[1..]
}

impl<'a> Cursor<'a> {
    pub fn new(tokens: &'a [Token]) -> Cursor<'a>
        ensures { result ≡ tokens.now }
    {
        Cursor { rest: tokens }
    }

    pub fn peek(&self) -> Option<&'a Token>
        ensures { option_copied result ≡ slice_get self.now 0 }
    {
        self.rest.first()
    }

    /// Takes the next token.
    pub fn next(&mut self) -> Option<&'a Token>
        ensures token { option_copied result ≡ slice_get self.old 0 }
        ensures rest { self.new ≡ drop 1 self.old }
        ensures shrinks { length self.new ≤ length self.old }
        ensures shorter { OnSome result (length self.new < length self.old) }
    {
        let token = self.rest.first()?;
        self.rest = from_second(self.rest);
        Some(token)
    }

    /// Takes the keyword or punctuator.
    #[tactic(auto, unfolding(crate::specs::Parse::take_mark))]
    pub fn take(&mut self, mark: Mark) -> Result<(), ParseFault>
        ensures step { spec.Steps (spec.take_mark mark self.old) result self.new }
        ensures shrinks { length self.new ≤ length self.old }
    {
        let Some(token) = self.next() else {
            return Err(ParseFault::Syntax);
        };
        if is_mark(&token.kind, mark) {
            Ok(())
        } else {
            Err(ParseFault::Syntax)
        }
    }

    /// Takes the name that comes next.
    #[tactic(auto, unfolding(crate::specs::Parse::take_name))]
    pub fn take_name(&mut self) -> Result<&'a Text, ParseFault>
        ensures name { IfOk result (λ name. spec.take_name self.old ≡ Some (name.now, self.new)) }
        ensures refused { IsErr result → spec.take_name self.old ≡ None }
        ensures shrinks { length self.new ≤ length self.old }
    {
        let Some(token) = self.next() else {
            return Err(ParseFault::Syntax);
        };
        match &token.kind {
            Kind::Name(name) => Ok(name),
            Kind::Fixed(_) => Err(ParseFault::Syntax),
            Kind::Number(_) => Err(ParseFault::Syntax),
        }
    }

    /// Whether `return 0;` and the last `}` are all that is left.
    #[tactic(auto, unfolding(crate::specs::Place::ends_main))]
    pub fn ends_main(&self) -> bool
        ensures { result ≡ place.ends_main self.now }
    {
        let [first, second, third, last] = self.rest else {
            return false;
        };
        if !is_mark(&first.kind, Mark::Return) {
            return false;
        }
        if !is_zero(&second.kind) {
            return false;
        }
        if !is_mark(&third.kind, Mark::Semicolon) {
            return false;
        }
        is_mark(&last.kind, Mark::CloseBrace)
    }
}
