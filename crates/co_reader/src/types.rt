ghost use Rattle.std.specs.Prelude.{◌≡◌, ◌≤◌, false};
ghost use Rattle.co_rules.specs.Names.{holds};
ghost use Rattle.co_reader.specs.Reading.{Reads};
ghost use Rattle.co_reader.specs.Types as spec;

use crate::cursor::Cursor;
use crate::fault::ReadFault;
use crate::lead::Lead;
use crate::leads::{builtin, library_object};
use co_base::{AtomicKind, Span, Text};
use co_lex::{Mark, Word};
use co_rules::ClassNames;
use co_tree::{Path, Reference, SimpleType, SimpleTypeKind, TypeId};
use sqlite_items::Items;
use std::alloc::Global;

fn names(alloc: Global, cursor: &mut Cursor<'_>) -> Result<Items<Text>, ReadFault>
    ensures { Reads (spec.names cursor.old) result cursor.new }
{
    let mut found = Items::new(alloc);
    for _turn in 0..cursor.left() {
        found.push(cursor.name()?)?;
        if !cursor.eat(Mark::Scope) {
            return Ok(found);
        }
    }
    Err(ReadFault::Refused)
}

/// Names with `::` between them, as many as there are [expr.prim.id.qual].
#[tactic(auto, unfolding(crate::specs::Types::path))]
pub fn path(alloc: Global, cursor: &mut Cursor<'_>) -> Result<Path, ReadFault>
    ensures { Reads (spec.path cursor.old) result cursor.new }
{
    let span = cursor.place();
    let names = names(alloc, cursor)?;
    Ok(Path { names, span })
}

fn last_is_class(classes: &ClassNames, mut names: &[Text]) -> bool
    ensures { result ≡ spec.last_is_class (holds classes.now) false names.entry.now }
{
    let mut is_class = false;
    while let [name, rest @ ..] = names {
        is_class = classes.contains(name.as_slice());
        names = rest;
    }
    is_class
}

/// Whether the path names a class: exactly where its last name is one of a class.
#[tactic(auto, unfolding(crate::specs::Types::names_class))]
pub fn names_class(classes: &ClassNames, path: &Path) -> bool
    ensures { result ≡ spec.names_class (holds classes.now) path.now }
{
    last_is_class(classes, path.names.as_slice())
}

#[tactic(auto, unfolding(crate::specs::Types::atomic_argument))]
fn atomic_argument(cursor: &mut Cursor<'_>) -> Result<AtomicKind, ReadFault>
    ensures { Reads (spec.atomic_argument cursor.old) result cursor.new }
{
    match cursor.lead() {
        Lead::Word(Word::Int) => {
            cursor.pass();
            Ok(AtomicKind::Int)
        }
        Lead::Word(Word::Long) => {
            cursor.pass();
            Ok(AtomicKind::Long)
        }
        Lead::Word(Word::Bool) => {
            cursor.pass();
            Ok(AtomicKind::Bool)
        }
        Lead::Word(Word::Void) => {
            cursor.pass();
            cursor.expect(Mark::Star)?;
            Ok(AtomicKind::VoidPointer)
        }
        _ => Err(ReadFault::Refused),
    }
}

#[tactic(auto, unfolding(crate::specs::Types::atomic))]
fn atomic(cursor: &mut Cursor<'_>) -> Result<AtomicKind, ReadFault>
    ensures { Reads (spec.atomic cursor.old) result cursor.new }
{
    cursor.expect(Mark::Less)?;
    let kind = atomic_argument(cursor)?;
    cursor.expect(Mark::Greater)?;
    Ok(kind)
}

const MOST_STARS: u32 = 1000;

/// As many `*` as there are; no more than 999 are read, since each opens a nesting level.
#[tactic(auto, unfolding(crate::specs::Types::stars))]
pub fn stars(cursor: &mut Cursor<'_>) -> Result<u32, ReadFault>
    ensures { Reads (spec.stars cursor.old) result cursor.new }
{
    for turn in 0..MOST_STARS {
        if !cursor.eat(Mark::Star) {
            return Ok(turn);
        }
    }
    Err(ReadFault::Refused)
}

/// `&`, `&&` or neither [dcl.ref].
#[tactic(auto, unfolding(crate::specs::Types::reference))]
pub fn reference(cursor: &mut Cursor<'_>) -> Result<Reference, ReadFault>
    ensures { Reads (spec.reference cursor.old) result cursor.new }
{
    match cursor.lead() {
        Lead::Mark(Mark::And) => {
            cursor.pass();
            Ok(Reference::Lvalue)
        }
        Lead::Mark(Mark::AndAnd) => {
            cursor.pass();
            Ok(Reference::Rvalue)
        }
        _ => Ok(Reference::None),
    }
}

/// A path that names a class.
#[tactic(auto, unfolding(crate::specs::Types::class_path))]
fn class_path(
    alloc: Global,
    classes: &ClassNames,
    cursor: &mut Cursor<'_>,
) -> Result<Path, ReadFault>
    ensures { Reads (spec.class_path (holds classes.now) cursor.old) result cursor.new }
{
    let path = path(alloc, cursor)?;
    if names_class(classes, &path) {
        Ok(path)
    } else {
        Err(ReadFault::Refused)
    }
}

fn promise_in(
    alloc: Global,
    classes: &ClassNames,
    is_absent: bool,
    cursor: &mut Cursor<'_>,
) -> Result<Option<Path>, ReadFault>
    ensures { Reads (spec.promise_in (holds classes.now) is_absent cursor.old) result cursor.new }
{
    if is_absent {
        return Ok(None);
    }
    Ok(Some(class_path(alloc, classes, cursor)?))
}

#[tactic(auto, unfolding(crate::specs::Types::promise))]
fn promise(
    alloc: Global,
    classes: &ClassNames,
    cursor: &mut Cursor<'_>,
) -> Result<Option<Path>, ReadFault>
    ensures { Reads (spec.promise (holds classes.now) cursor.old) result cursor.new }
{
    cursor.expect(Mark::Less)?;
    let is_absent = cursor.sees(Mark::Greater);
    let found = promise_in(alloc, classes, is_absent, cursor)?;
    cursor.expect(Mark::Greater)?;
    Ok(found)
}

/// The type whose name after `std ::` has been read.
#[tactic(auto, unfolding(crate::specs::Types::library_type))]
pub fn library_type(
    alloc: Global,
    classes: &ClassNames,
    text: &[u8],
    cursor: &mut Cursor<'_>,
) -> Result<SimpleTypeKind, ReadFault>
    ensures { Reads (spec.library_type (holds classes.now) text.now cursor.old) result cursor.new }
{
    if text == b"coroutine_handle".as_slice() {
        return Ok(SimpleTypeKind::Handle(promise(alloc, classes, cursor)?));
    }
    if text == b"atomic".as_slice() {
        return Ok(SimpleTypeKind::Atomic(atomic(cursor)?));
    }
    match library_object(text) {
        Some(kind) => Ok(kind),
        None => Err(ReadFault::Refused),
    }
}

#[tactic(auto, unfolding(crate::specs::Types::library_kind))]
fn library_kind(
    alloc: Global,
    classes: &ClassNames,
    cursor: &mut Cursor<'_>,
) -> Result<SimpleTypeKind, ReadFault>
    ensures { Reads (spec.library_kind (holds classes.now) cursor.old) result cursor.new }
{
    cursor.expect(Mark::Scope)?;
    let text = cursor.any_name()?;
    library_type(alloc, classes, text, cursor)
}

fn named_kind(
    alloc: Global,
    classes: &ClassNames,
    is_std: bool,
    cursor: &mut Cursor<'_>,
) -> Result<SimpleTypeKind, ReadFault>
    ensures { Reads (spec.named_kind (holds classes.now) is_std cursor.old) result cursor.new }
{
    if is_std {
        cursor.pass();
        return library_kind(alloc, classes, cursor);
    }
    Ok(SimpleTypeKind::Class(class_path(alloc, classes, cursor)?))
}

/// What a type is built on, but for `auto` [dcl.type.simple].
#[tactic(auto, unfolding(crate::specs::Types::simple_type))]
pub fn simple_type(
    alloc: Global,
    classes: &ClassNames,
    cursor: &mut Cursor<'_>,
) -> Result<SimpleType, ReadFault>
    ensures { Reads (spec.simple_type (holds classes.now) cursor.old) result cursor.new }
{
    let span = cursor.place();
    if let Some(kind) = builtin(cursor.lead()) {
        cursor.pass();
        return Ok(SimpleType { kind, span });
    }
    let is_std = cursor.spells(b"std");
    let kind = named_kind(alloc, classes, is_std, cursor)?;
    Ok(SimpleType { kind, span })
}

/// What stands behind the base of a type.
#[tactic(auto, unfolding(crate::specs::Types::type_rest))]
pub fn type_rest(
    span: Span,
    is_const: bool,
    base: SimpleType,
    cursor: &mut Cursor<'_>,
) -> Result<TypeId, ReadFault>
    ensures { Reads (spec.type_rest span is_const base cursor.old) result cursor.new }
{
    let is_const_after = cursor.eat_word(Word::Const);
    let pointers = stars(cursor)?;
    let reference = reference(cursor)?;
    Ok(TypeId {
        is_const,
        base,
        is_const_after,
        pointers,
        reference,
        span,
    })
}

/// A type, but for `auto` [dcl.name].
#[tactic(auto, unfolding(crate::specs::Types::type_id))]
pub fn type_id(
    alloc: Global,
    classes: &ClassNames,
    cursor: &mut Cursor<'_>,
) -> Result<TypeId, ReadFault>
    ensures { Reads (spec.type_id (holds classes.now) cursor.old) result cursor.new }
{
    let span = cursor.place();
    let is_const = cursor.eat_word(Word::Const);
    let base = simple_type(alloc, classes, cursor)?;
    type_rest(span, is_const, base, cursor)
}
