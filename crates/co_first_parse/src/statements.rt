ghost use Rattle.std.specs.Prelude.{◌≡◌, ◌≤◌, length, None, Some};
ghost use Rattle.co_first_parse.specs.Parse as spec;

use crate::cursor::Cursor;
use crate::fault::ParseFault;
use crate::names::Names;
use crate::sums::sum_and;
use crate::token::Mark;
use co_base::Text;
use co_first_tree::{Stmt, Sum};
use std::alloc::Global;

/// `long` has been taken [dcl.init].
#[tactic(auto, unfolding(crate::specs::Parse::declare))]
pub fn declare(
    alloc: Global,
    names: &mut Names,
    tokens: &mut Cursor<'_>,
) -> Result<Stmt, ParseFault>
    ensures read { spec.Reads2 (spec.declare names.old tokens.old) result names.new tokens.new }
    ensures shrinks { length tokens.new ≤ length tokens.old }
{
    let name = tokens.take_name()?;
    tokens.take(Mark::Assign)?;
    if !names.is_new(name.as_slice()) {
        return Err(ParseFault::Syntax);
    }
    let sum = sum_and(alloc, Mark::Semicolon, names, tokens)?;
    let number = names.declare(name)?;
    Ok(Stmt::Declare(number, sum))
}

/// The name has been taken [expr.ass].
#[tactic(auto, unfolding(crate::specs::Parse::assign))]
pub fn assign(
    alloc: Global,
    names: &Names,
    name: &Text,
    tokens: &mut Cursor<'_>,
) -> Result<Stmt, ParseFault>
    ensures read { spec.Reads (spec.assign names.now name.now tokens.old) result tokens.new }
    ensures shrinks { length tokens.new ≤ length tokens.old }
{
    let Some(number) = names.variable(name.as_slice()) else {
        return Err(ParseFault::Syntax);
    };
    tokens.take(Mark::Assign)?;
    let sum = sum_and(alloc, Mark::Semicolon, names, tokens)?;
    Ok(Stmt::Assign(number, sum))
}

/// A sum in parentheses, and the mark behind it.
#[tactic(auto, unfolding(crate::specs::Parse::enclosed))]
pub fn enclosed(
    alloc: Global,
    mark: Mark,
    names: &Names,
    tokens: &mut Cursor<'_>,
) -> Result<Sum, ParseFault>
    ensures read { spec.Reads (spec.enclosed mark names.now tokens.old) result tokens.new }
    ensures shrinks { length tokens.new ≤ length tokens.old }
{
    tokens.take(Mark::OpenParenthesis)?;
    let sum = sum_and(alloc, Mark::CloseParenthesis, names, tokens)?;
    tokens.take(mark)?;
    Ok(sum)
}

/// `corun` has been taken.
#[tactic(auto, unfolding(crate::specs::Parse::print))]
pub fn print(alloc: Global, names: &Names, tokens: &mut Cursor<'_>) -> Result<Stmt, ParseFault>
    ensures read { spec.Reads (spec.print names.now tokens.old) result tokens.new }
    ensures shrinks { length tokens.new ≤ length tokens.old }
{
    tokens.take(Mark::Scope)?;
    let name = tokens.take_name()?;
    if name.as_slice() != b"print".as_slice() {
        return Err(ParseFault::Syntax);
    }
    let sum = enclosed(alloc, Mark::Semicolon, names, tokens)?;
    Ok(Stmt::Print(sum))
}
