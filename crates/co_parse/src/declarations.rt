//! Globals, functions and the members of a class other than classes, by the next token [dcl.dcl] [class.mem].

ghost use Rattle.std.specs.Prelude.{◌≡◌};
ghost use Rattle.co_rules.specs.Names.{holds};
ghost use Rattle.co_reader.specs.Reading.{Reads};
ghost use Rattle.co_expressions.specs.Expressions.{expression};
ghost use Rattle.co_parse.specs.Declarations as spec;

use co_base::{Span, Text};
use co_expressions::Within;
use co_lex::{Mark, Word};
use co_reader::{Cursor, Lead, ReadFault, closing, opening, type_id};
use co_statements::{auto_type, block, parameter};
use co_tree::{
    AccessSpecifier, AliasDeclaration, Block, Constructor, ConstructorBody, Declaration,
    Destructor, DestructorBody, Function, FunctionName, FunctionSpecifier, Initializer,
    MemberDeclaration, MemberInitializer, Parameter, Reference, SimpleTypeKind, TypeId, Variable,
};
use sqlite_items::Items;
use std::alloc::Global;

fn specifier(lead: Lead) -> Option<FunctionSpecifier>
    ensures { result ≡ spec.specifier lead }
{
    match lead {
        Lead::Word(Word::Static) => Some(FunctionSpecifier::Static),
        Lead::Word(Word::Inline) => Some(FunctionSpecifier::Inline),
        _ => None,
    }
}

fn access_specifier(lead: Lead) -> Option<AccessSpecifier>
    ensures { result ≡ spec.access_specifier lead }
{
    match lead {
        Lead::Word(Word::Public) => Some(AccessSpecifier::Public),
        Lead::Word(Word::Private) => Some(AccessSpecifier::Private),
        Lead::Word(Word::Protected) => Some(AccessSpecifier::Protected),
        _ => None,
    }
}

fn is_opening(lead: Lead) -> bool
    ensures { result ≡ spec.is_opening lead }
{
    match lead {
        Lead::Mark(Mark::OpenParen) => true,
        _ => false,
    }
}

fn is_auto(kind: &SimpleTypeKind) -> bool
    ensures { result ≡ spec.is_auto kind.now }
{
    match kind {
        SimpleTypeKind::Auto => true,
        _ => false,
    }
}

fn has_none(specifiers: &[FunctionSpecifier]) -> bool
    ensures { result ≡ spec.has_none specifiers.now }
{
    match specifiers {
        [] => true,
        [_, ..] => false,
    }
}

fn is_of_file(name: &FunctionName) -> bool
    ensures { result ≡ spec.is_of_file name.now }
{
    match name {
        FunctionName::Name(_) => true,
        FunctionName::OperatorCoAwait => true,
        FunctionName::OperatorNew => false,
        FunctionName::OperatorDelete => false,
    }
}

fn specifiers(alloc: Global, cursor: &mut Cursor<'_>) -> Result<Items<FunctionSpecifier>, ReadFault>
    ensures { Reads (spec.specifiers cursor.old) result cursor.new }
{
    let mut found = Items::new(alloc);
    for _turn in 0..cursor.left() {
        let Some(next) = specifier(cursor.lead()) else {
            return Ok(found);
        };
        cursor.pass();
        found.push(next)?;
    }
    Err(ReadFault::Refused)
}

#[tactic(auto, unfolding(crate::specs::Declarations::operator_name))]
fn operator_name(cursor: &mut Cursor<'_>) -> Result<FunctionName, ReadFault>
    ensures { Reads (spec.operator_name cursor.old) result cursor.new }
{
    match cursor.lead() {
        Lead::Word(Word::CoAwait) => {
            cursor.pass();
            Ok(FunctionName::OperatorCoAwait)
        }
        Lead::Word(Word::New) => {
            cursor.pass();
            Ok(FunctionName::OperatorNew)
        }
        Lead::Word(Word::Delete) => {
            cursor.pass();
            Ok(FunctionName::OperatorDelete)
        }
        _ => Err(ReadFault::Refused),
    }
}

#[tactic(auto, unfolding(crate::specs::Declarations::declared_name))]
fn declared_name(cursor: &mut Cursor<'_>) -> Result<FunctionName, ReadFault>
    ensures { Reads (spec.declared_name cursor.old) result cursor.new }
{
    if cursor.eat_word(Word::Operator) {
        return operator_name(cursor);
    }
    Ok(FunctionName::Name(cursor.name()?))
}

#[tactic(auto, unfolding(crate::specs::Declarations::result_type))]
fn result_type(within: &Within<'_>, cursor: &mut Cursor<'_>) -> Result<TypeId, ReadFault>
    ensures { Reads (spec.result_type (holds within.now.classes.now) cursor.old) result cursor.new }
{
    let at = cursor.place();
    if cursor.eat_word(Word::Auto) {
        return Ok(auto_type(at, Reference::None));
    }
    type_id(within.alloc, within.classes, cursor)
}

fn more_parameters(
    within: &Within<'_>,
    first: Parameter,
    cursor: &mut Cursor<'_>,
) -> Result<Items<Parameter>, ReadFault>
    ensures { Reads (spec.more_parameters (holds within.now.classes.now) first cursor.old) result cursor.new }
{
    let mut found = Items::new(within.alloc);
    found.push(first)?;
    for _turn in 0..cursor.left() {
        if !cursor.eat(Mark::Comma) {
            return Ok(found);
        }
        found.push(parameter(within, cursor)?)?;
    }
    Err(ReadFault::Refused)
}

#[tactic(auto, unfolding(crate::specs::Declarations::some_parameters))]
fn some_parameters(
    within: &Within<'_>,
    cursor: &mut Cursor<'_>,
) -> Result<Items<Parameter>, ReadFault>
    ensures { Reads (spec.some_parameters (holds within.now.classes.now) cursor.old) result cursor.new }
{
    let first = parameter(within, cursor)?;
    let found = more_parameters(within, first, cursor)?;
    cursor.expect(Mark::CloseParen)?;
    Ok(found)
}

#[tactic(auto, unfolding(crate::specs::Declarations::parameters))]
fn parameters(within: &Within<'_>, cursor: &mut Cursor<'_>) -> Result<Items<Parameter>, ReadFault>
    ensures { Reads (spec.parameters (holds within.now.classes.now) cursor.old) result cursor.new }
{
    cursor.expect(Mark::OpenParen)?;
    if cursor.eat(Mark::CloseParen) {
        return Ok(Items::new(within.alloc));
    }
    some_parameters(within, cursor)
}

/// What stands after `using` [dcl.typedef].
#[tactic(auto, unfolding(crate::specs::Declarations::alias))]
pub fn alias(
    within: &Within<'_>,
    at: Span,
    cursor: &mut Cursor<'_>,
) -> Result<AliasDeclaration, ReadFault>
    ensures { Reads (spec.alias (holds within.now.classes.now) at cursor.old) result cursor.new }
{
    let name = cursor.name()?;
    cursor.expect(Mark::Assign)?;
    let of = type_id(within.alloc, within.classes, cursor)?;
    cursor.expect(Mark::Semicolon)?;
    Ok(AliasDeclaration { name, of, span: at })
}

#[tactic(auto, unfolding(crate::specs::Declarations::field_initializer))]
fn field_initializer(within: &Within<'_>, cursor: &mut Cursor<'_>) -> Result<Initializer, ReadFault>
    ensures { Reads (spec.field_initializer (expression (holds within.now.classes.now) within.now.depth) cursor.old) result cursor.new }
{
    match cursor.lead() {
        Lead::Mark(Mark::Assign) => {
            cursor.pass();
            Ok(Initializer::Equals(within.expression(cursor)?))
        }
        Lead::Mark(Mark::OpenBrace) => {
            cursor.pass();
            Ok(Initializer::Braces(within.arguments(Mark::CloseBrace, cursor)?))
        }
        _ => Ok(Initializer::None),
    }
}

#[tactic(auto, unfolding(crate::specs::Declarations::initialized_variable))]
fn initialized_variable(
    within: &Within<'_>,
    at: Span,
    of: TypeId,
    name: Text,
    cursor: &mut Cursor<'_>,
) -> Result<Variable, ReadFault>
    ensures { Reads (spec.initialized_variable (expression (holds within.now.classes.now) within.now.depth) at of name cursor.old) result cursor.new }
{
    let initializer = field_initializer(within, cursor)?;
    cursor.expect(Mark::Semicolon)?;
    Ok(Variable {
        of,
        name,
        initializer,
        span: at,
    })
}

fn variable_if(
    within: &Within<'_>,
    at: Span,
    of: TypeId,
    is_allowed: bool,
    name: FunctionName,
    cursor: &mut Cursor<'_>,
) -> Result<Variable, ReadFault>
    ensures { Reads (spec.variable_by (expression (holds within.now.classes.now) within.now.depth) at of is_allowed name cursor.old) result cursor.new }
{
    if !is_allowed {
        return Err(ReadFault::Refused);
    }
    match name {
        FunctionName::Name(name) => initialized_variable(within, at, of, name, cursor),
        _ => Err(ReadFault::Refused),
    }
}

#[tactic(auto, unfolding(crate::specs::Declarations::variable))]
fn variable(
    within: &Within<'_>,
    at: Span,
    specifiers: Items<FunctionSpecifier>,
    of: TypeId,
    name: FunctionName,
    cursor: &mut Cursor<'_>,
) -> Result<Variable, ReadFault>
    ensures { Reads (spec.variable (expression (holds within.now.classes.now) within.now.depth) at specifiers of name cursor.old) result cursor.new }
{
    let is_allowed = has_none(specifiers.as_slice()) && !is_auto(&of.base.kind);
    variable_if(within, at, of, is_allowed, name, cursor)
}

#[tactic(auto, unfolding(crate::specs::Declarations::member_initializer))]
fn member_initializer(
    within: &Within<'_>,
    cursor: &mut Cursor<'_>,
) -> Result<MemberInitializer, ReadFault>
    ensures { Reads (spec.member_initializer (expression (holds within.now.classes.now) within.now.depth) cursor.old) result cursor.new }
{
    let span = cursor.place();
    let name = cursor.name()?;
    let Some(brackets) = opening(cursor.lead()) else {
        return Err(ReadFault::Refused);
    };
    cursor.pass();
    let arguments = within.arguments(closing(brackets), cursor)?;
    Ok(MemberInitializer {
        name,
        brackets,
        arguments,
        span,
    })
}

fn more_member_initializers(
    within: &Within<'_>,
    first: MemberInitializer,
    cursor: &mut Cursor<'_>,
) -> Result<Items<MemberInitializer>, ReadFault>
    ensures { Reads (spec.more_member_initializers (expression (holds within.now.classes.now) within.now.depth) first cursor.old) result cursor.new }
{
    let mut found = Items::new(within.alloc);
    found.push(first)?;
    for _turn in 0..cursor.left() {
        if !cursor.eat(Mark::Comma) {
            return Ok(found);
        }
        found.push(member_initializer(within, cursor)?)?;
    }
    Err(ReadFault::Refused)
}

#[tactic(auto, unfolding(crate::specs::Declarations::member_initializers))]
fn member_initializers(
    within: &Within<'_>,
    cursor: &mut Cursor<'_>,
) -> Result<Items<MemberInitializer>, ReadFault>
    ensures { Reads (spec.member_initializers (expression (holds within.now.classes.now) within.now.depth) cursor.old) result cursor.new }
{
    let first = member_initializer(within, cursor)?;
    more_member_initializers(within, first, cursor)
}

#[tactic(auto, unfolding(crate::specs::Declarations::block_or_semicolon))]
fn block_or_semicolon(
    within: &Within<'_>,
    cursor: &mut Cursor<'_>,
) -> Result<Option<Block>, ReadFault>
    ensures { Reads (spec.block_or_semicolon (holds within.now.classes.now) within.now.depth cursor.old) result cursor.new }
{
    if cursor.eat(Mark::Semicolon) {
        return Ok(None);
    }
    Ok(Some(block(within, cursor)?))
}

#[tactic(auto, unfolding(crate::specs::Declarations::function_rest))]
fn function_rest(
    within: &Within<'_>,
    at: Span,
    specifiers: Items<FunctionSpecifier>,
    of: TypeId,
    name: FunctionName,
    cursor: &mut Cursor<'_>,
) -> Result<Function, ReadFault>
    ensures { Reads (spec.function_rest (holds within.now.classes.now) within.now.depth at specifiers of name cursor.old) result cursor.new }
{
    let given = parameters(within, cursor)?;
    let is_noexcept = cursor.eat_word(Word::Noexcept);
    let body = block_or_semicolon(within, cursor)?;
    Ok(Function {
        specifiers,
        result: of,
        name,
        parameters: given,
        is_const: false,
        is_noexcept,
        body,
        span: at,
    })
}

#[tactic(auto, unfolding(crate::specs::Declarations::function))]
fn function(
    within: &Within<'_>,
    at: Span,
    specifiers: Items<FunctionSpecifier>,
    of: TypeId,
    name: FunctionName,
    cursor: &mut Cursor<'_>,
) -> Result<Function, ReadFault>
    ensures { Reads (spec.function (holds within.now.classes.now) within.now.depth at specifiers of name cursor.old) result cursor.new }
{
    if !is_of_file(&name) {
        return Err(ReadFault::Refused);
    }
    function_rest(within, at, specifiers, of, name, cursor)
}

#[tactic(auto, unfolding(crate::specs::Declarations::method))]
fn method(
    within: &Within<'_>,
    at: Span,
    specifiers: Items<FunctionSpecifier>,
    of: TypeId,
    name: FunctionName,
    cursor: &mut Cursor<'_>,
) -> Result<Function, ReadFault>
    ensures { Reads (spec.method (holds within.now.classes.now) within.now.depth at specifiers of name cursor.old) result cursor.new }
{
    let given = parameters(within, cursor)?;
    let is_const = cursor.eat_word(Word::Const);
    let is_noexcept = cursor.eat_word(Word::Noexcept);
    let body = block(within, cursor)?;
    Ok(Function {
        specifiers,
        result: of,
        name,
        parameters: given,
        is_const,
        is_noexcept,
        body: Some(body),
        span: at,
    })
}

/// A global or a function of the file.
#[tactic(auto, unfolding(crate::specs::Declarations::global_item))]
pub fn global_item(within: &Within<'_>, cursor: &mut Cursor<'_>) -> Result<Declaration, ReadFault>
    ensures { Reads (spec.global_item (holds within.now.classes.now) within.now.depth cursor.old) result cursor.new }
{
    let at = cursor.place();
    let found = specifiers(within.alloc, cursor)?;
    let of = result_type(within, cursor)?;
    let name = declared_name(cursor)?;
    if cursor.sees(Mark::OpenParen) {
        return Ok(Declaration::Function(function(within, at, found, of, name, cursor)?));
    }
    Ok(Declaration::Global(variable(within, at, found, of, name, cursor)?))
}

#[tactic(auto, unfolding(crate::specs::Declarations::member_item))]
fn member_item(within: &Within<'_>, cursor: &mut Cursor<'_>) -> Result<MemberDeclaration, ReadFault>
    ensures { Reads (spec.member_item (holds within.now.classes.now) within.now.depth cursor.old) result cursor.new }
{
    let at = cursor.place();
    let found = specifiers(within.alloc, cursor)?;
    let of = result_type(within, cursor)?;
    let name = declared_name(cursor)?;
    if cursor.sees(Mark::OpenParen) {
        return Ok(MemberDeclaration::Method(method(within, at, found, of, name, cursor)?));
    }
    Ok(MemberDeclaration::Field(variable(within, at, found, of, name, cursor)?))
}

#[tactic(auto, unfolding(crate::specs::Declarations::defaulted))]
fn defaulted(cursor: &mut Cursor<'_>) -> Result<ConstructorBody, ReadFault>
    ensures { Reads (spec.defaulted cursor.old) result cursor.new }
{
    match cursor.lead() {
        Lead::Word(Word::Default) => {
            cursor.pass();
            cursor.expect(Mark::Semicolon)?;
            Ok(ConstructorBody::Default)
        }
        Lead::Word(Word::Delete) => {
            cursor.pass();
            cursor.expect(Mark::Semicolon)?;
            Ok(ConstructorBody::Delete)
        }
        _ => Err(ReadFault::Refused),
    }
}

#[tactic(auto, unfolding(crate::specs::Declarations::initializing))]
fn initializing(within: &Within<'_>, cursor: &mut Cursor<'_>) -> Result<ConstructorBody, ReadFault>
    ensures { Reads (spec.initializing (holds within.now.classes.now) within.now.depth cursor.old) result cursor.new }
{
    let found = member_initializers(within, cursor)?;
    let body = block(within, cursor)?;
    Ok(ConstructorBody::Block(found, body))
}

#[tactic(auto, unfolding(crate::specs::Declarations::constructor_end))]
fn constructor_end(
    within: &Within<'_>,
    cursor: &mut Cursor<'_>,
) -> Result<ConstructorBody, ReadFault>
    ensures { Reads (spec.constructor_end (holds within.now.classes.now) within.now.depth cursor.old) result cursor.new }
{
    match cursor.lead() {
        Lead::Mark(Mark::Colon) => {
            cursor.pass();
            initializing(within, cursor)
        }
        Lead::Mark(Mark::Assign) => {
            cursor.pass();
            defaulted(cursor)
        }
        _ => {
            let body = block(within, cursor)?;
            Ok(ConstructorBody::Block(Items::new(within.alloc), body))
        }
    }
}

#[tactic(auto, unfolding(crate::specs::Declarations::constructor))]
fn constructor(
    within: &Within<'_>,
    at: Span,
    is_explicit: bool,
    cursor: &mut Cursor<'_>,
) -> Result<Constructor, ReadFault>
    ensures { Reads (spec.constructor (holds within.now.classes.now) within.now.depth at is_explicit cursor.old) result cursor.new }
{
    let name = cursor.name()?;
    let given = parameters(within, cursor)?;
    let is_noexcept = cursor.eat_word(Word::Noexcept);
    let body = constructor_end(within, cursor)?;
    Ok(Constructor {
        is_explicit,
        name,
        parameters: given,
        is_noexcept,
        body,
        span: at,
    })
}

#[tactic(auto, unfolding(crate::specs::Declarations::destructor_default))]
fn destructor_default(cursor: &mut Cursor<'_>) -> Result<DestructorBody, ReadFault>
    ensures { Reads (spec.destructor_default cursor.old) result cursor.new }
{
    cursor.expect_word(Word::Default)?;
    cursor.expect(Mark::Semicolon)?;
    Ok(DestructorBody::Default)
}

#[tactic(auto, unfolding(crate::specs::Declarations::destructor_end))]
fn destructor_end(within: &Within<'_>, cursor: &mut Cursor<'_>) -> Result<DestructorBody, ReadFault>
    ensures { Reads (spec.destructor_end (holds within.now.classes.now) within.now.depth cursor.old) result cursor.new }
{
    if cursor.eat(Mark::Assign) {
        return destructor_default(cursor);
    }
    Ok(DestructorBody::Block(block(within, cursor)?))
}

#[tactic(auto, unfolding(crate::specs::Declarations::destructor))]
fn destructor(
    within: &Within<'_>,
    at: Span,
    cursor: &mut Cursor<'_>,
) -> Result<Destructor, ReadFault>
    ensures { Reads (spec.destructor (holds within.now.classes.now) within.now.depth at cursor.old) result cursor.new }
{
    let name = cursor.name()?;
    cursor.expect(Mark::OpenParen)?;
    cursor.expect(Mark::CloseParen)?;
    let is_noexcept = cursor.eat_word(Word::Noexcept);
    let body = destructor_end(within, cursor)?;
    Ok(Destructor {
        name,
        is_noexcept,
        body,
        span: at,
    })
}

#[tactic(auto, unfolding(crate::specs::Declarations::plain_member))]
fn plain_member(
    within: &Within<'_>,
    at: Span,
    cursor: &mut Cursor<'_>,
) -> Result<MemberDeclaration, ReadFault>
    ensures { Reads (spec.plain_member (holds within.now.classes.now) within.now.depth at cursor.old) result cursor.new }
{
    if is_opening(cursor.lead_after()) {
        return Ok(MemberDeclaration::Constructor(constructor(within, at, false, cursor)?));
    }
    member_item(within, cursor)
}

/// A member of a class, other than a class [class.mem].
#[tactic(auto, unfolding(crate::specs::Declarations::simple_member))]
pub fn simple_member(
    within: &Within<'_>,
    at: Span,
    cursor: &mut Cursor<'_>,
) -> Result<MemberDeclaration, ReadFault>
    ensures { Reads (spec.simple_member (holds within.now.classes.now) within.now.depth at cursor.old) result cursor.new }
{
    if let Some(specifier) = access_specifier(cursor.lead()) {
        cursor.pass();
        cursor.expect(Mark::Colon)?;
        return Ok(MemberDeclaration::Access(specifier, at));
    }
    match cursor.lead() {
        Lead::Word(Word::Using) => {
            cursor.pass();
            Ok(MemberDeclaration::Alias(alias(within, at, cursor)?))
        }
        Lead::Word(Word::Explicit) => {
            cursor.pass();
            Ok(MemberDeclaration::Constructor(constructor(within, at, true, cursor)?))
        }
        Lead::Mark(Mark::Tilde) => {
            cursor.pass();
            Ok(MemberDeclaration::Destructor(destructor(within, at, cursor)?))
        }
        Lead::Name => plain_member(within, at, cursor),
        _ => member_item(within, cursor),
    }
}
