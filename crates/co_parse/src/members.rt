//! Classes, and the declarations of a file [class.pre] [basic.link].

ghost use Rattle.std.specs.Prelude.{◌≡◌};
ghost use Rattle.co_rules.specs.Names.{holds};
ghost use Rattle.co_reader.specs.Reading.{Reads};
ghost use Rattle.co_parse.specs.Declarations as spec;
ghost use Rattle.co_parse.specs.NestsMembers.{NestsMembers};

use crate::declarations::{alias, global_item, simple_member};
use co_base::Span;
use co_expressions::Within;
use co_lex::{Mark, Word};
use co_reader::{Cursor, Lead, ReadFault};
use co_rules::ClassNames;
use co_tree::{ClassDefinition, ClassKey, Declaration, ForwardDeclaration, MemberDeclaration};
use sqlite_items::Items;
use std::alloc::Global;

fn class_key(lead: Lead) -> Option<ClassKey>
    ensures { result ≡ spec.class_key lead }
{
    match lead {
        Lead::Word(Word::Struct) => Some(ClassKey::Struct),
        Lead::Word(Word::Class) => Some(ClassKey::Class),
        _ => None,
    }
}

pub fn is_end(lead: Lead) -> bool
    ensures { result ≡ spec.is_end lead }
{
    match lead {
        Lead::End => true,
        _ => false,
    }
}

/// The reader of the members inside a class, which is a parameter, so that each rule is proved by itself.
#[derive(Clone, Copy)]
pub struct Members<'c, F> {
    pub within: Within<'c>,
    pub member: F,
}

impl<
    F: Fn(Global, &ClassNames, &mut Cursor<'_>, usize) -> Result<MemberDeclaration, ReadFault>,
> Members<'_, F> {
    fn member(&self, cursor: &mut Cursor<'_>) -> Result<MemberDeclaration, ReadFault>
        requires { NestsMembers self.now.within.depth (F.pre self.now.member) (F.post self.now.member) }
        ensures { Reads (spec.member (holds self.now.within.classes.now) self.now.within.depth cursor.old) result cursor.new }
    {
        (self.member)(
            self.within.alloc,
            self.within.classes,
            cursor,
            self.within.depth,
        )
    }

    fn members(&self, cursor: &mut Cursor<'_>) -> Result<Items<MemberDeclaration>, ReadFault>
        requires { NestsMembers self.now.within.depth (F.pre self.now.member) (F.post self.now.member) }
        ensures { Reads (spec.members (spec.member (holds self.now.within.classes.now) self.now.within.depth) cursor.old) result cursor.new }
    {
        let mut found = Items::new(self.within.alloc);
        for _turn in 0..cursor.left() {
            if cursor.eat(Mark::CloseBrace) {
                return Ok(found);
            }
            found.push(self.member(cursor)?)?;
        }
        Err(ReadFault::Refused)
    }

    #[tactic(auto, unfolding(crate::specs::Declarations::class_body))]
    fn class_body(&self, cursor: &mut Cursor<'_>) -> Result<Items<MemberDeclaration>, ReadFault>
        requires { NestsMembers self.now.within.depth (F.pre self.now.member) (F.post self.now.member) }
        ensures { Reads (spec.class_body (spec.member (holds self.now.within.classes.now) self.now.within.depth) cursor.old) result cursor.new }
    {
        cursor.expect(Mark::OpenBrace)?;
        let found = self.members(cursor)?;
        cursor.expect(Mark::Semicolon)?;
        Ok(found)
    }

    #[tactic(auto, unfolding(crate::specs::Declarations::nested_class))]
    fn nested_class(
        &self,
        at: Span,
        key: ClassKey,
        cursor: &mut Cursor<'_>,
    ) -> Result<MemberDeclaration, ReadFault>
        requires { NestsMembers self.now.within.depth (F.pre self.now.member) (F.post self.now.member) }
        ensures { Reads (spec.nested_class (spec.member (holds self.now.within.classes.now) self.now.within.depth) at key cursor.old) result cursor.new }
    {
        let name = cursor.name()?;
        if cursor.eat(Mark::Semicolon) {
            return Ok(MemberDeclaration::Forward(ForwardDeclaration {
                key,
                name,
                span: at,
            }));
        }
        let found = self.class_body(cursor)?;
        Ok(MemberDeclaration::Class(key, name, found, at))
    }

    #[tactic(auto, unfolding(crate::specs::Declarations::file_class))]
    fn file_class(
        &self,
        at: Span,
        key: ClassKey,
        cursor: &mut Cursor<'_>,
    ) -> Result<Declaration, ReadFault>
        requires { NestsMembers self.now.within.depth (F.pre self.now.member) (F.post self.now.member) }
        ensures { Reads (spec.file_class (spec.member (holds self.now.within.classes.now) self.now.within.depth) at key cursor.old) result cursor.new }
    {
        let name = cursor.name()?;
        if cursor.eat(Mark::Semicolon) {
            return Ok(Declaration::Forward(ForwardDeclaration {
                key,
                name,
                span: at,
            }));
        }
        let members = self.class_body(cursor)?;
        Ok(Declaration::Class(ClassDefinition {
            key,
            name,
            members,
            span: at,
        }))
    }

    #[tactic(auto, unfolding(crate::specs::Declarations::member_level))]
    fn level(&self, cursor: &mut Cursor<'_>) -> Result<MemberDeclaration, ReadFault>
        requires { NestsMembers self.now.within.depth (F.pre self.now.member) (F.post self.now.member) }
        ensures { Reads (spec.member_level (holds self.now.within.classes.now) self.now.within.depth (spec.member (holds self.now.within.classes.now) self.now.within.depth) cursor.old) result cursor.new }
    {
        let at = cursor.place();
        let Some(key) = class_key(cursor.lead()) else {
            return simple_member(&self.within, at, cursor);
        };
        cursor.pass();
        self.nested_class(at, key, cursor)
    }
}

/// A member of a class. At most `depth` classes, statements and expressions nest in one another.
pub fn member(
    alloc: Global,
    classes: &ClassNames,
    cursor: &mut Cursor<'_>,
    depth: usize,
) -> Result<MemberDeclaration, ReadFault>
    ensures { Reads (spec.member (holds classes.now) depth cursor.old) result cursor.new }
{
    if depth == 0 {
        return Err(ReadFault::Refused);
    }
    let within = Within {
        alloc,
        classes,
        depth: depth - 1,
    };
    Members { within, member }.level(cursor)
}

fn file_class(
    within: &Within<'_>,
    at: Span,
    key: ClassKey,
    cursor: &mut Cursor<'_>,
) -> Result<Declaration, ReadFault>
    ensures { Reads (spec.file_class (spec.member (holds within.now.classes.now) within.now.depth) at key cursor.old) result cursor.new }
{
    Members {
        within: *within,
        member,
    }
    .file_class(at, key, cursor)
}

#[tactic(auto, unfolding(crate::specs::Declarations::declaration))]
fn declaration(within: &Within<'_>, cursor: &mut Cursor<'_>) -> Result<Declaration, ReadFault>
    ensures { Reads (spec.declaration (holds within.now.classes.now) within.now.depth cursor.old) result cursor.new }
{
    let at = cursor.place();
    if let Some(key) = class_key(cursor.lead()) {
        cursor.pass();
        return file_class(within, at, key, cursor);
    }
    match cursor.lead() {
        Lead::Word(Word::Using) => {
            cursor.pass();
            Ok(Declaration::Alias(alias(within, at, cursor)?))
        }
        _ => global_item(within, cursor),
    }
}

/// The declarations of a file, up to its end.
pub fn declarations(
    within: &Within<'_>,
    cursor: &mut Cursor<'_>,
) -> Result<Items<Declaration>, ReadFault>
    ensures { Reads (spec.declarations (holds within.now.classes.now) within.now.depth cursor.old) result cursor.new }
{
    let mut found = Items::new(within.alloc);
    for _turn in 0..cursor.left() {
        if is_end(cursor.lead()) {
            return Ok(found);
        }
        found.push(declaration(within, cursor)?)?;
    }
    Err(ReadFault::Refused)
}
