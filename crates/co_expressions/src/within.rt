//! What the rules above expressions take of them.

ghost use Rattle.co_rules.specs.Names.{holds};
ghost use Rattle.co_reader.specs.Reading.{Reads};
ghost use Rattle.co_expressions.specs.Expressions.{expression};
ghost use Rattle.co_expressions.specs.Expressions as spec;

use crate::expressions::{Grammar, expression};
use co_base::Span;
use co_lex::Mark;
use co_reader::{Cursor, ReadFault};
use co_rules::ClassNames;
use co_tree::{Expression, SimpleType};
use sqlite_items::Items;
use std::alloc::Global;

/// What a rule is read with: the names of classes, and how many expressions may still nest in one another.
#[derive(Clone, Copy)]
pub struct Within<'c> {
    pub alloc: Global,
    pub classes: &'c ClassNames,
    pub depth: usize,
}

impl Within<'_> {
    pub fn expression(&self, cursor: &mut Cursor<'_>) -> Result<Expression, ReadFault>
        ensures { Reads (spec.expression (holds self.now.classes.now) self.now.depth 0 cursor.old) result cursor.new }
    {
        expression(self.alloc, self.classes, cursor, self.depth, 0)
    }

    pub fn more(
        &self,
        first: Expression,
        cursor: &mut Cursor<'_>,
    ) -> Result<Items<Expression>, ReadFault>
        ensures { Reads (spec.more (expression (holds self.now.classes.now) self.now.depth) first cursor.old) result cursor.new }
    {
        Grammar {
            alloc: self.alloc,
            classes: self.classes,
            depth: self.depth,
            expr: expression,
        }
        .more(first, cursor)
    }

    pub fn arguments(
        &self,
        close: Mark,
        cursor: &mut Cursor<'_>,
    ) -> Result<Items<Expression>, ReadFault>
        ensures { Reads (spec.arguments (expression (holds self.now.classes.now) self.now.depth) close cursor.old) result cursor.new }
    {
        Grammar {
            alloc: self.alloc,
            classes: self.classes,
            depth: self.depth,
            expr: expression,
        }
        .arguments(close, cursor)
    }

    pub fn parenthesized(&self, cursor: &mut Cursor<'_>) -> Result<Expression, ReadFault>
        ensures { Reads (spec.parenthesized (expression (holds self.now.classes.now) self.now.depth) cursor.old) result cursor.new }
    {
        Grammar {
            alloc: self.alloc,
            classes: self.classes,
            depth: self.depth,
            expr: expression,
        }
        .parenthesized(cursor)
    }

    pub fn based(
        &self,
        at: Span,
        base: SimpleType,
        cursor: &mut Cursor<'_>,
    ) -> Result<Expression, ReadFault>
        ensures { Reads (spec.based (expression (holds self.now.classes.now) self.now.depth) at base cursor.old) result cursor.new }
    {
        Grammar {
            alloc: self.alloc,
            classes: self.classes,
            depth: self.depth,
            expr: expression,
        }
        .based(at, base, cursor)
    }

    pub fn after_primary(
        &self,
        at: Span,
        primary: Expression,
        cursor: &mut Cursor<'_>,
    ) -> Result<Expression, ReadFault>
        ensures { Reads (spec.after_primary (expression (holds self.now.classes.now) self.now.depth) at primary cursor.old) result cursor.new }
    {
        Grammar {
            alloc: self.alloc,
            classes: self.classes,
            depth: self.depth,
            expr: expression,
        }
        .after_primary(at, primary, cursor)
    }
}
