ghost use Rattle.std.specs.Prelude.{◌≡◌, ◌≤◌, ◌<◌, length, IfOk, IsErr, None, Some, drop, option_map};
ghost use Rattle.co_first_parse.specs.Parse as spec;

use crate::cursor::Cursor;
use crate::fault::ParseFault;
use crate::names::Names;
use crate::token::{Kind, Mark};
use co_base::{Span, Text};
use co_first_tree::{Atom, Sum, SumOp, Term};
use sqlite_items::Items;
use std::alloc::Global;

const MAX_OPERATORS: usize = 64;

fn op_of(kind: &Kind) -> Option<SumOp>
    ensures { result ≡ spec.op_of kind.now }
{
    match kind {
        Kind::Fixed(Mark::Plus) => Some(SumOp::Add),
        Kind::Fixed(Mark::Minus) => Some(SumOp::Sub),
        _ => None,
    }
}

#[tactic(auto, unfolding(crate::specs::Parse::atom_of))]
fn atom_of(names: &Names, kind: &Kind) -> Option<Atom>
    ensures { result ≡ spec.atom_of names.now kind.now }
{
    match kind {
        Kind::Number(value) => Some(Atom::Int(*value)),
        Kind::Name(name) => {
            let number = names.variable(name.as_slice())?;
            Some(Atom::Name(number))
        }
        Kind::Fixed(_) => None,
    }
}

fn next_op(tokens: &Cursor<'_>) -> Option<SumOp>
    ensures { result ≡ spec.next_op tokens.now }
{
    let token = tokens.peek()?;
    op_of(&token.kind)
}

#[tactic(auto, unfolding(crate::specs::Parse::next_atom))]
fn next_atom(names: &Names, tokens: &mut Cursor<'_>) -> Result<Atom, ParseFault>
    ensures read { spec.Reads (spec.next_atom names.now tokens.old) result tokens.new }
    ensures shrinks { length tokens.new ≤ length tokens.old }
{
    let Some(token) = tokens.next() else {
        return Err(ParseFault::Syntax);
    };
    match atom_of(names, &token.kind) {
        Some(atom) => Ok(atom),
        None => Err(ParseFault::Syntax),
    }
}

/// What is added to the first operand and taken from it.
fn terms(alloc: Global, names: &Names, tokens: &mut Cursor<'_>) -> Result<Items<Term>, ParseFault>
    ensures read { spec.Reads (spec.terms_of names.now tokens.old) result tokens.new }
    ensures shrinks { length tokens.new ≤ length tokens.old }
{
    let mut terms = Items::new(alloc);
    while let Some(op) = next_op(tokens) {
        let _operator = tokens.next();
        let atom = next_atom(names, tokens)?;
        terms.push(Term { op, atom })?;
    }
    Ok(terms)
}

#[tactic(auto, unfolding(crate::specs::Parse::sum_by))]
fn sum_by(
    alloc: Global,
    names: &Names,
    kind: &Kind,
    at: Span,
    tokens: &mut Cursor<'_>,
) -> Result<Sum, ParseFault>
    ensures read { spec.Reads (spec.sum_by names.now kind.now at tokens.old) result tokens.new }
    ensures shrinks { length tokens.new ≤ length tokens.old }
{
    match kind {
        Kind::Number(value) => Ok(Sum::Int(*value, at)),
        Kind::Name(name) => {
            let Some(number) = names.variable(name.as_slice()) else {
                return Err(ParseFault::Syntax);
            };
            let terms = terms(alloc, names, tokens)?;
            if terms.len() <= MAX_OPERATORS {
                Ok(Sum::Name(number, terms, at))
            } else {
                Err(ParseFault::Syntax)
            }
        }
        Kind::Fixed(_) => Err(ParseFault::Syntax),
    }
}

/// An integer literal, or a variable and its terms [expr.add].
#[tactic(auto, unfolding(crate::specs::Parse::sum_of))]
pub fn sum_of(alloc: Global, names: &Names, tokens: &mut Cursor<'_>) -> Result<Sum, ParseFault>
    ensures read { spec.Reads (spec.sum_of names.now tokens.old) result tokens.new }
    ensures shrinks { length tokens.new ≤ length tokens.old }
{
    let Some(token) = tokens.next() else {
        return Err(ParseFault::Syntax);
    };
    sum_by(alloc, names, &token.kind, token.span, tokens)
}

/// A sum and the mark behind it.
#[tactic(auto, unfolding(crate::specs::Parse::sum_and))]
pub fn sum_and(
    alloc: Global,
    mark: Mark,
    names: &Names,
    tokens: &mut Cursor<'_>,
) -> Result<Sum, ParseFault>
    ensures read { spec.Reads (spec.sum_and mark names.now tokens.old) result tokens.new }
    ensures shrinks { length tokens.new ≤ length tokens.old }
{
    let sum = sum_of(alloc, names, tokens)?;
    tokens.take(mark)?;
    Ok(sum)
}
