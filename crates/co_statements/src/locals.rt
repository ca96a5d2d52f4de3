//! Locals, and the statements that an expression or the type of a local begins [stmt.expr] [stmt.dcl].

ghost use Rattle.std.specs.Prelude.{◌≡◌};
ghost use Rattle.co_rules.specs.Names.{holds};
ghost use Rattle.co_reader.specs.Reading.{Reads};
ghost use Rattle.co_expressions.specs.Expressions.{expression};
ghost use Rattle.co_statements.specs.Statements as spec;

use co_base::{Span, Text};
use co_expressions::Within;
use co_lex::{Mark, Word};
use co_reader::{
    Cursor, Lead, ReadFault, builtin, goes_on_as_type, library_function, library_type, names_class,
    path, simple_type, type_id, type_rest,
};
use co_tree::{
    Caught, Expression, ForInit, Initializer, Parameter, Reference, Returned, SimpleType,
    SimpleTypeKind, TypeId, Variable,
};
use sqlite_items::Items;

fn is_class_type(kind: &SimpleTypeKind) -> bool
    ensures { result ≡ spec.is_class_type kind.now }
{
    match kind {
        SimpleTypeKind::Class(_) => true,
        _ => false,
    }
}

pub fn auto_type(at: Span, reference: Reference) -> TypeId
    ensures { result ≡ spec.auto_type at reference }
{
    TypeId {
        is_const: false,
        base: SimpleType {
            kind: SimpleTypeKind::Auto,
            span: at,
        },
        is_const_after: false,
        pointers: 0,
        reference,
        span: at,
    }
}

#[tactic(auto, unfolding(crate::specs::Statements::ended))]
fn ended(value: Expression, cursor: &mut Cursor<'_>) -> Result<ForInit, ReadFault>
    ensures { Reads (spec.ended value cursor.old) result cursor.new }
{
    cursor.expect(Mark::Semicolon)?;
    Ok(ForInit::Expression(value))
}

#[tactic(auto, unfolding(crate::specs::Statements::name_if))]
fn name_if(cursor: &mut Cursor<'_>) -> Result<Option<Text>, ReadFault>
    ensures { Reads (spec.name_if cursor.old) result cursor.new }
{
    match cursor.lead() {
        Lead::Name => Ok(Some(cursor.name()?)),
        _ => Ok(None),
    }
}

/// A type, and a name where one follows [dcl.fct].
#[tactic(auto, unfolding(crate::specs::Statements::parameter))]
pub fn parameter(within: &Within<'_>, cursor: &mut Cursor<'_>) -> Result<Parameter, ReadFault>
    ensures { Reads (spec.parameter (holds within.now.classes.now) cursor.old) result cursor.new }
{
    let span = cursor.place();
    let of = type_id(within.alloc, within.classes, cursor)?;
    let name = name_if(cursor)?;
    Ok(Parameter { of, name, span })
}

/// What stands in the parentheses of a `catch` [except.pre].
#[tactic(auto, unfolding(crate::specs::Statements::caught))]
pub fn caught(within: &Within<'_>, cursor: &mut Cursor<'_>) -> Result<Caught, ReadFault>
    ensures { Reads (spec.caught (holds within.now.classes.now) cursor.old) result cursor.new }
{
    if cursor.eat(Mark::Ellipsis) {
        return Ok(Caught::All);
    }
    Ok(Caught::One(parameter(within, cursor)?))
}

/// An expression or none, and the mark behind it.
#[tactic(auto, unfolding(crate::specs::Statements::optional))]
pub fn optional(
    within: &Within<'_>,
    close: Mark,
    cursor: &mut Cursor<'_>,
) -> Result<Option<Expression>, ReadFault>
    ensures { Reads (spec.optional (expression (holds within.now.classes.now) within.now.depth) close cursor.old) result cursor.new }
{
    if cursor.eat(close) {
        return Ok(None);
    }
    let value = within.expression(cursor)?;
    cursor.expect(close)?;
    Ok(Some(value))
}

/// What stands after `return` [stmt.return].
#[tactic(auto, unfolding(crate::specs::Statements::returned))]
pub fn returned(within: &Within<'_>, cursor: &mut Cursor<'_>) -> Result<Returned, ReadFault>
    ensures { Reads (spec.returned (expression (holds within.now.classes.now) within.now.depth) cursor.old) result cursor.new }
{
    match cursor.lead() {
        Lead::Mark(Mark::Semicolon) => {
            cursor.pass();
            Ok(Returned::None)
        }
        Lead::Mark(Mark::OpenBrace) => {
            cursor.pass();
            let found = within.arguments(Mark::CloseBrace, cursor)?;
            cursor.expect(Mark::Semicolon)?;
            Ok(Returned::Braces(found))
        }
        _ => {
            let value = within.expression(cursor)?;
            cursor.expect(Mark::Semicolon)?;
            Ok(Returned::Value(value))
        }
    }
}

#[tactic(auto, unfolding(crate::specs::Statements::equals))]
fn equals(within: &Within<'_>, cursor: &mut Cursor<'_>) -> Result<Initializer, ReadFault>
    ensures { Reads (spec.equals (expression (holds within.now.classes.now) within.now.depth) cursor.old) result cursor.new }
{
    if cursor.eat(Mark::OpenBrace) {
        return Ok(Initializer::EqualsBraces(within.arguments(Mark::CloseBrace, cursor)?));
    }
    Ok(Initializer::Equals(within.expression(cursor)?))
}

#[tactic(auto, unfolding(crate::specs::Statements::library_first))]
fn library_first(
    within: &Within<'_>,
    at: Span,
    cursor: &mut Cursor<'_>,
) -> Result<Expression, ReadFault>
    ensures { Reads (spec.library_first (holds within.now.classes.now) (expression (holds within.now.classes.now) within.now.depth) at cursor.old) result cursor.new }
{
    cursor.expect(Mark::Scope)?;
    let called = cursor.any_name()?;
    match library_function(called) {
        Some(function) => {
            within.after_primary(at, Expression::StandardFunction(function, at), cursor)
        }
        None => Err(ReadFault::Refused),
    }
}

#[tactic(auto, unfolding(crate::specs::Statements::pathed_first))]
fn pathed_first(
    within: &Within<'_>,
    at: Span,
    cursor: &mut Cursor<'_>,
) -> Result<Expression, ReadFault>
    ensures { Reads (spec.pathed_first (holds within.now.classes.now) (expression (holds within.now.classes.now) within.now.depth) at cursor.old) result cursor.new }
{
    let path = path(within.alloc, cursor)?;
    if names_class(within.classes, &path) {
        return Err(ReadFault::Refused);
    }
    within.after_primary(at, Expression::Name(path), cursor)
}

#[tactic(auto, unfolding(crate::specs::Statements::named_first))]
fn named_first(
    within: &Within<'_>,
    at: Span,
    cursor: &mut Cursor<'_>,
) -> Result<Expression, ReadFault>
    ensures { Reads (spec.named_first (holds within.now.classes.now) (expression (holds within.now.classes.now) within.now.depth) at cursor.old) result cursor.new }
{
    if cursor.spells(b"std") {
        cursor.pass();
        return library_first(within, at, cursor);
    }
    if cursor.spells(b"corun") {
        return within.expression(cursor);
    }
    pathed_first(within, at, cursor)
}

#[tactic(auto, unfolding(crate::specs::Statements::first_argument))]
fn first_argument(within: &Within<'_>, cursor: &mut Cursor<'_>) -> Result<Expression, ReadFault>
    ensures { Reads (spec.first_argument (holds within.now.classes.now) (expression (holds within.now.classes.now) within.now.depth) cursor.old) result cursor.new }
{
    let at = cursor.place();
    match cursor.lead() {
        Lead::Name => named_first(within, at, cursor),
        lead => match builtin(lead) {
            Some(_) => Err(ReadFault::Refused),
            None => within.expression(cursor),
        },
    }
}

#[tactic(auto, unfolding(crate::specs::Statements::local_arguments))]
fn local_arguments(
    within: &Within<'_>,
    cursor: &mut Cursor<'_>,
) -> Result<Items<Expression>, ReadFault>
    ensures { Reads (spec.local_arguments (holds within.now.classes.now) (expression (holds within.now.classes.now) within.now.depth) cursor.old) result cursor.new }
{
    let first = first_argument(within, cursor)?;
    let found = within.more(first, cursor)?;
    cursor.expect(Mark::CloseParen)?;
    Ok(found)
}

#[tactic(auto, unfolding(crate::specs::Statements::local_initializer))]
fn local_initializer(within: &Within<'_>, cursor: &mut Cursor<'_>) -> Result<Initializer, ReadFault>
    ensures { Reads (spec.local_initializer (holds within.now.classes.now) (expression (holds within.now.classes.now) within.now.depth) cursor.old) result cursor.new }
{
    match cursor.lead() {
        Lead::Mark(Mark::Assign) => {
            cursor.pass();
            equals(within, cursor)
        }
        Lead::Mark(Mark::OpenParen) => {
            cursor.pass();
            Ok(Initializer::Parentheses(local_arguments(within, cursor)?))
        }
        Lead::Mark(Mark::OpenBrace) => {
            cursor.pass();
            Ok(Initializer::Braces(within.arguments(Mark::CloseBrace, cursor)?))
        }
        _ => Ok(Initializer::None),
    }
}

#[tactic(auto, unfolding(crate::specs::Statements::local))]
fn local(
    within: &Within<'_>,
    at: Span,
    of: TypeId,
    cursor: &mut Cursor<'_>,
) -> Result<ForInit, ReadFault>
    ensures { Reads (spec.local (holds within.now.classes.now) (expression (holds within.now.classes.now) within.now.depth) at of cursor.old) result cursor.new }
{
    let name = cursor.name()?;
    let initializer = local_initializer(within, cursor)?;
    cursor.expect(Mark::Semicolon)?;
    Ok(ForInit::Local(Variable {
        of,
        name,
        initializer,
        span: at,
    }))
}

#[tactic(auto, unfolding(crate::specs::Statements::constant))]
fn constant(within: &Within<'_>, at: Span, cursor: &mut Cursor<'_>) -> Result<ForInit, ReadFault>
    ensures { Reads (spec.constant (holds within.now.classes.now) (expression (holds within.now.classes.now) within.now.depth) at cursor.old) result cursor.new }
{
    let base = simple_type(within.alloc, within.classes, cursor)?;
    let of = type_rest(at, true, base, cursor)?;
    local(within, at, of, cursor)
}

#[tactic(auto, unfolding(crate::specs::Statements::automatic))]
fn automatic(within: &Within<'_>, at: Span, cursor: &mut Cursor<'_>) -> Result<ForInit, ReadFault>
    ensures { Reads (spec.automatic (holds within.now.classes.now) (expression (holds within.now.classes.now) within.now.depth) at cursor.old) result cursor.new }
{
    let reference = if cursor.eat(Mark::And) {
        Reference::Lvalue
    } else {
        Reference::None
    };
    local(within, at, auto_type(at, reference), cursor)
}

#[tactic(auto, unfolding(crate::specs::Statements::led_by_operand))]
fn led_by_operand(
    within: &Within<'_>,
    at: Span,
    operand: Expression,
    cursor: &mut Cursor<'_>,
) -> Result<ForInit, ReadFault>
    ensures { Reads (spec.led_by_operand (holds within.now.classes.now) (expression (holds within.now.classes.now) within.now.depth) at operand cursor.old) result cursor.new }
{
    let value = within.after_primary(at, operand, cursor)?;
    ended(value, cursor)
}

#[tactic(auto, unfolding(crate::specs::Statements::led_by_built))]
fn led_by_built(
    within: &Within<'_>,
    at: Span,
    base: SimpleType,
    cursor: &mut Cursor<'_>,
) -> Result<ForInit, ReadFault>
    ensures { Reads (spec.led_by_built (holds within.now.classes.now) (expression (holds within.now.classes.now) within.now.depth) at base cursor.old) result cursor.new }
{
    let operand = within.based(at, base, cursor)?;
    led_by_operand(within, at, operand, cursor)
}

#[tactic(auto, unfolding(crate::specs::Statements::led))]
fn led(
    within: &Within<'_>,
    at: Span,
    base: SimpleType,
    cursor: &mut Cursor<'_>,
) -> Result<ForInit, ReadFault>
    ensures { Reads (spec.led (holds within.now.classes.now) (expression (holds within.now.classes.now) within.now.depth) at base cursor.old) result cursor.new }
{
    if goes_on_as_type(cursor.lead()) {
        let of = type_rest(at, false, base, cursor)?;
        return local(within, at, of, cursor);
    }
    if is_class_type(&base.kind) && cursor.sees(Mark::OpenParen) {
        return Err(ReadFault::Refused);
    }
    led_by_built(within, at, base, cursor)
}

#[tactic(auto, unfolding(crate::specs::Statements::led_by_library))]
fn led_by_library(
    within: &Within<'_>,
    at: Span,
    cursor: &mut Cursor<'_>,
) -> Result<ForInit, ReadFault>
    ensures { Reads (spec.led_by_library (holds within.now.classes.now) (expression (holds within.now.classes.now) within.now.depth) at cursor.old) result cursor.new }
{
    cursor.expect(Mark::Scope)?;
    let called = cursor.any_name()?;
    if let Some(function) = library_function(called) {
        return led_by_operand(
            within,
            at,
            Expression::StandardFunction(function, at),
            cursor,
        );
    }
    let kind = library_type(within.alloc, within.classes, called, cursor)?;
    led(within, at, SimpleType { kind, span: at }, cursor)
}

#[tactic(auto, unfolding(crate::specs::Statements::led_by_path))]
fn led_by_path(within: &Within<'_>, at: Span, cursor: &mut Cursor<'_>) -> Result<ForInit, ReadFault>
    ensures { Reads (spec.led_by_path (holds within.now.classes.now) (expression (holds within.now.classes.now) within.now.depth) at cursor.old) result cursor.new }
{
    let path = path(within.alloc, cursor)?;
    if !names_class(within.classes, &path) {
        return led_by_operand(within, at, Expression::Name(path), cursor);
    }
    let kind = SimpleTypeKind::Class(path);
    led(within, at, SimpleType { kind, span: at }, cursor)
}

#[tactic(auto, unfolding(crate::specs::Statements::plain))]
fn plain(within: &Within<'_>, cursor: &mut Cursor<'_>) -> Result<ForInit, ReadFault>
    ensures { Reads (spec.plain (holds within.now.classes.now) (expression (holds within.now.classes.now) within.now.depth) cursor.old) result cursor.new }
{
    let value = within.expression(cursor)?;
    ended(value, cursor)
}

#[tactic(auto, unfolding(crate::specs::Statements::led_by_name))]
fn led_by_name(within: &Within<'_>, at: Span, cursor: &mut Cursor<'_>) -> Result<ForInit, ReadFault>
    ensures { Reads (spec.led_by_name (holds within.now.classes.now) (expression (holds within.now.classes.now) within.now.depth) at cursor.old) result cursor.new }
{
    if cursor.spells(b"std") {
        cursor.pass();
        return led_by_library(within, at, cursor);
    }
    if cursor.spells(b"corun") {
        return plain(within, cursor);
    }
    led_by_path(within, at, cursor)
}

fn led_by_builtin(
    within: &Within<'_>,
    at: Span,
    kind: Option<SimpleTypeKind>,
    cursor: &mut Cursor<'_>,
) -> Result<ForInit, ReadFault>
    ensures { Reads (spec.led_by_builtin (holds within.now.classes.now) (expression (holds within.now.classes.now) within.now.depth) at kind cursor.old) result cursor.new }
{
    match kind {
        Some(kind) => {
            cursor.pass();
            led(within, at, SimpleType { kind, span: at }, cursor)
        }
        None => plain(within, cursor),
    }
}

/// A local, an expression or nothing, and the `;` behind it.
#[tactic(auto, unfolding(crate::specs::Statements::short))]
pub fn short(within: &Within<'_>, cursor: &mut Cursor<'_>) -> Result<ForInit, ReadFault>
    ensures { Reads (spec.short (holds within.now.classes.now) (expression (holds within.now.classes.now) within.now.depth) cursor.old) result cursor.new }
{
    let at = cursor.place();
    match cursor.lead() {
        Lead::Mark(Mark::Semicolon) => {
            cursor.pass();
            Ok(ForInit::None)
        }
        Lead::Word(Word::Const) => {
            cursor.pass();
            constant(within, at, cursor)
        }
        Lead::Word(Word::Auto) => {
            cursor.pass();
            automatic(within, at, cursor)
        }
        Lead::Name => led_by_name(within, at, cursor),
        lead => led_by_builtin(within, at, builtin(lead), cursor),
    }
}
