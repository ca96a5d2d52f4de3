//! Expressions, by the next token; operators between operands by precedence [expr].

ghost use Rattle.std.specs.Prelude.{◌≡◌, ◌≤◌, IfOk};
ghost use Rattle.co_rules.specs.Names.{holds};
ghost use Rattle.co_reader.specs.Reading.{Reads};
ghost use Rattle.co_expressions.specs.Expressions as spec;
ghost use Rattle.co_expressions.specs.Nests.{Nests};

use co_base::Span;
use co_lex::{Mark, Word};
use co_reader::{
    Cursor, Lead, ReadFault, assignment_operator, begins_expression, binary_operator, builtin,
    closing, handle_function, is_reference, library_function, library_type, literal,
    member_operator, names_class, opening, path, run_function, simple_type, stars, step_operator,
    strength_of, type_id, unary_operator,
};
use co_rules::ClassNames;
use co_tree::{Expression, HandleFunction, SimpleType, SimpleTypeKind};
use sqlite_items::{Boxed, Items};
use std::alloc::Global;

#[tactic(auto, unfolding(crate::specs::Expressions::binds))]
fn binds(lead: Lead) -> u8
    ensures { result ≡ spec.binds lead }
{
    match binary_operator(lead) {
        Some(op) => strength_of(op),
        None => 0,
    }
}

fn begins_suffix(lead: Lead) -> bool
    ensures { result ≡ spec.begins_suffix lead }
{
    match lead {
        Lead::Mark(Mark::Dot | Mark::Arrow | Mark::OpenParen | Mark::Increment | Mark::Decrement) =>
            true,
        _ => false,
    }
}

fn static_of(at: Span, kind: SimpleTypeKind, function: Option<HandleFunction>) -> Option<Expression>
    ensures { result ≡ spec.static_of at kind function }
{
    let function = function?;
    match kind {
        SimpleTypeKind::Handle(promise) => Some(Expression::HandleFunction(promise, function, at)),
        _ => None,
    }
}

#[tactic(auto, unfolding(crate::specs::Expressions::text))]
fn text(at: Span, cursor: &mut Cursor<'_>) -> Result<Expression, ReadFault>
    ensures { Reads (spec.text at cursor.old) result cursor.new }
{
    cursor.expect(Mark::OpenParen)?;
    let found = cursor.text_literal()?;
    cursor.expect(Mark::CloseParen)?;
    Ok(Expression::Text(found, at))
}

#[tactic(auto, unfolding(crate::specs::Expressions::of_corun))]
fn of_corun(at: Span, cursor: &mut Cursor<'_>) -> Result<Expression, ReadFault>
    ensures { Reads (spec.of_corun at cursor.old) result cursor.new }
{
    cursor.expect(Mark::Scope)?;
    let called = cursor.any_name()?;
    if let Some(function) = run_function(called) {
        return Ok(Expression::CorunFunction(function, at));
    }
    if called == b"text".as_slice() {
        text(at, cursor)
    } else {
        Err(ReadFault::Refused)
    }
}

/// The reader of the expressions inside another one, which is a parameter, so that each rule is proved by itself.
#[derive(Clone, Copy)]
pub struct Grammar<'c, F> {
    pub alloc: Global,
    pub classes: &'c ClassNames,
    /// How many expressions may still nest in one another.
    pub depth: usize,
    pub expr: F,
}

impl<
    F: Fn(Global, &ClassNames, &mut Cursor<'_>, usize, u8) -> Result<Expression, ReadFault>,
> Grammar<'_, F> {
    pub fn expr(&self, cursor: &mut Cursor<'_>, least: u8) -> Result<Expression, ReadFault>
        requires { Nests self.now.depth (F.pre self.now.expr) (F.post self.now.expr) }
        ensures { Reads (spec.expression (holds self.now.classes.now) self.now.depth least cursor.old) result cursor.new }
    {
        (self.expr)(self.alloc, self.classes, cursor, self.depth, least)
    }

    pub fn more(
        &self,
        first: Expression,
        cursor: &mut Cursor<'_>,
    ) -> Result<Items<Expression>, ReadFault>
        requires { Nests self.now.depth (F.pre self.now.expr) (F.post self.now.expr) }
        ensures { Reads (spec.more (spec.expression (holds self.now.classes.now) self.now.depth) first cursor.old) result cursor.new }
    {
        let mut found = Items::new(self.alloc);
        found.push(first)?;
        for _turn in 0..cursor.left() {
            if !cursor.eat(Mark::Comma) {
                return Ok(found);
            }
            found.push(self.expr(cursor, 0)?)?;
        }
        Err(ReadFault::Refused)
    }

    #[tactic(auto, unfolding(crate::specs::Expressions::listed))]
    fn listed(&self, cursor: &mut Cursor<'_>) -> Result<Items<Expression>, ReadFault>
        requires { Nests self.now.depth (F.pre self.now.expr) (F.post self.now.expr) }
        ensures { Reads (spec.listed (spec.expression (holds self.now.classes.now) self.now.depth) cursor.old) result cursor.new }
    {
        let first = self.expr(cursor, 0)?;
        self.more(first, cursor)
    }

    /// Arguments and the mark that ends them.
    #[tactic(auto, unfolding(crate::specs::Expressions::arguments))]
    pub fn arguments(
        &self,
        close: Mark,
        cursor: &mut Cursor<'_>,
    ) -> Result<Items<Expression>, ReadFault>
        requires { Nests self.now.depth (F.pre self.now.expr) (F.post self.now.expr) }
        ensures { Reads (spec.arguments (spec.expression (holds self.now.classes.now) self.now.depth) close cursor.old) result cursor.new }
    {
        if cursor.eat(close) {
            return Ok(Items::new(self.alloc));
        }
        let found = self.listed(cursor)?;
        cursor.expect(close)?;
        Ok(found)
    }

    #[tactic(auto, unfolding(crate::specs::Expressions::given_arguments))]
    fn given_arguments(&self, cursor: &mut Cursor<'_>) -> Result<Items<Expression>, ReadFault>
        requires { Nests self.now.depth (F.pre self.now.expr) (F.post self.now.expr) }
        ensures { Reads (spec.given_arguments (spec.expression (holds self.now.classes.now) self.now.depth) cursor.old) result cursor.new }
    {
        cursor.expect(Mark::OpenParen)?;
        let found = self.listed(cursor)?;
        cursor.expect(Mark::CloseParen)?;
        Ok(found)
    }

    #[tactic(auto, unfolding(crate::specs::Expressions::parenthesized))]
    pub fn parenthesized(&self, cursor: &mut Cursor<'_>) -> Result<Expression, ReadFault>
        requires { Nests self.now.depth (F.pre self.now.expr) (F.post self.now.expr) }
        ensures { Reads (spec.parenthesized (spec.expression (holds self.now.classes.now) self.now.depth) cursor.old) result cursor.new }
    {
        cursor.expect(Mark::OpenParen)?;
        let inner = self.expr(cursor, 0)?;
        cursor.expect(Mark::CloseParen)?;
        Ok(inner)
    }

    #[tactic(auto, unfolding(crate::specs::Expressions::construction))]
    fn construction(
        &self,
        base: SimpleType,
        cursor: &mut Cursor<'_>,
    ) -> Result<Expression, ReadFault>
        requires { Nests self.now.depth (F.pre self.now.expr) (F.post self.now.expr) }
        ensures { Reads (spec.construction (spec.expression (holds self.now.classes.now) self.now.depth) base cursor.old) result cursor.new }
    {
        let Some(how) = opening(cursor.lead()) else {
            return Err(ReadFault::Refused);
        };
        cursor.pass();
        let found = self.arguments(closing(how), cursor)?;
        Ok(Expression::Construction(base, how, found))
    }

    /// What stands behind the base of a type that begins an operand.
    #[tactic(auto, unfolding(crate::specs::Expressions::based))]
    pub fn based(
        &self,
        at: Span,
        base: SimpleType,
        cursor: &mut Cursor<'_>,
    ) -> Result<Expression, ReadFault>
        requires { Nests self.now.depth (F.pre self.now.expr) (F.post self.now.expr) }
        ensures { Reads (spec.based (spec.expression (holds self.now.classes.now) self.now.depth) at base cursor.old) result cursor.new }
    {
        if !cursor.eat(Mark::Scope) {
            return self.construction(base, cursor);
        }
        let called = cursor.any_name()?;
        match static_of(at, base.kind, handle_function(called)) {
            Some(found) => Ok(found),
            None => Err(ReadFault::Refused),
        }
    }

    #[tactic(auto, unfolding(crate::specs::Expressions::suffix))]
    fn suffix(
        &self,
        at: Span,
        operand: Expression,
        cursor: &mut Cursor<'_>,
    ) -> Result<Expression, ReadFault>
        requires { Nests self.now.depth (F.pre self.now.expr) (F.post self.now.expr) }
        ensures { Reads (spec.suffix (spec.expression (holds self.now.classes.now) self.now.depth) at operand cursor.old) result cursor.new }
    {
        let operand = Boxed::new(self.alloc, operand)?;
        if let Some(op) = member_operator(cursor.lead()) {
            cursor.pass();
            let name = cursor.name()?;
            return Ok(Expression::Member(operand, op, name, at));
        }
        if let Some(op) = step_operator(cursor.lead()) {
            cursor.pass();
            return Ok(Expression::Step(operand, op, at));
        }
        cursor.expect(Mark::OpenParen)?;
        let found = self.arguments(Mark::CloseParen, cursor)?;
        Ok(Expression::Call(operand, found, at))
    }

    fn postfix(
        &self,
        at: Span,
        mut operand: Expression,
        cursor: &mut Cursor<'_>,
    ) -> Result<Expression, ReadFault>
        requires { Nests self.now.depth (F.pre self.now.expr) (F.post self.now.expr) }
        ensures { Reads (spec.postfix (spec.expression (holds self.now.classes.now) self.now.depth) at operand cursor.old) result cursor.new }
    {
        for _turn in 0..cursor.left() {
            if !begins_suffix(cursor.lead()) {
                return Ok(operand);
            }
            operand = self.suffix(at, operand, cursor)?;
        }
        Err(ReadFault::Refused)
    }

    #[tactic(auto, unfolding(crate::specs::Expressions::operation))]
    fn operation(
        &self,
        at: Span,
        left: Expression,
        cursor: &mut Cursor<'_>,
    ) -> Result<Expression, ReadFault>
        requires { Nests self.now.depth (F.pre self.now.expr) (F.post self.now.expr) }
        ensures { Reads (spec.operation (spec.expression (holds self.now.classes.now) self.now.depth) at left cursor.old) result cursor.new }
    {
        let Some(op) = binary_operator(cursor.lead()) else {
            return Err(ReadFault::Refused);
        };
        cursor.pass();
        let left = Boxed::new(self.alloc, left)?;
        let right = Boxed::new(self.alloc, self.expr(cursor, strength_of(op) + 1)?)?;
        Ok(Expression::Binary(left, op, right, at))
    }

    fn operations(
        &self,
        at: Span,
        least: u8,
        mut left: Expression,
        cursor: &mut Cursor<'_>,
    ) -> Result<Expression, ReadFault>
        requires { Nests self.now.depth (F.pre self.now.expr) (F.post self.now.expr) }
        ensures { Reads (spec.operations (spec.expression (holds self.now.classes.now) self.now.depth) at least left cursor.old) result cursor.new }
    {
        for _turn in 0..cursor.left() {
            if binds(cursor.lead()) < least {
                return Ok(left);
            }
            left = self.operation(at, left, cursor)?;
        }
        Err(ReadFault::Refused)
    }

    #[tactic(auto, unfolding(crate::specs::Expressions::ending))]
    fn ending(
        &self,
        at: Span,
        left: Expression,
        cursor: &mut Cursor<'_>,
    ) -> Result<Expression, ReadFault>
        requires { Nests self.now.depth (F.pre self.now.expr) (F.post self.now.expr) }
        ensures { Reads (spec.ending (spec.expression (holds self.now.classes.now) self.now.depth) at left cursor.old) result cursor.new }
    {
        if let Some(op) = assignment_operator(cursor.lead()) {
            cursor.pass();
            let left = Boxed::new(self.alloc, left)?;
            let right = Boxed::new(self.alloc, self.expr(cursor, 0)?)?;
            return Ok(Expression::Assignment(left, op, right, at));
        }
        if !cursor.sees(Mark::Question) {
            return Ok(left);
        }
        cursor.pass();
        let left = Boxed::new(self.alloc, left)?;
        let first = Boxed::new(self.alloc, self.expr(cursor, 0)?)?;
        cursor.expect(Mark::Colon)?;
        let second = Boxed::new(self.alloc, self.expr(cursor, 0)?)?;
        Ok(Expression::Conditional(left, first, second, at))
    }

    #[tactic(auto, unfolding(crate::specs::Expressions::after_unary))]
    fn after_unary(
        &self,
        at: Span,
        operand: Expression,
        cursor: &mut Cursor<'_>,
    ) -> Result<Expression, ReadFault>
        requires { Nests self.now.depth (F.pre self.now.expr) (F.post self.now.expr) }
        ensures { Reads (spec.after_unary (spec.expression (holds self.now.classes.now) self.now.depth) at operand cursor.old) result cursor.new }
    {
        let left = self.operations(at, 1, operand, cursor)?;
        self.ending(at, left, cursor)
    }

    /// What stands behind what an expression begins with.
    #[tactic(auto, unfolding(crate::specs::Expressions::after_primary))]
    pub fn after_primary(
        &self,
        at: Span,
        primary: Expression,
        cursor: &mut Cursor<'_>,
    ) -> Result<Expression, ReadFault>
        requires { Nests self.now.depth (F.pre self.now.expr) (F.post self.now.expr) }
        ensures { Reads (spec.after_primary (spec.expression (holds self.now.classes.now) self.now.depth) at primary cursor.old) result cursor.new }
    {
        let operand = self.postfix(at, primary, cursor)?;
        self.after_unary(at, operand, cursor)
    }

    #[tactic(auto, unfolding(crate::specs::Expressions::thrown))]
    fn thrown(&self, at: Span, cursor: &mut Cursor<'_>) -> Result<Expression, ReadFault>
        requires { Nests self.now.depth (F.pre self.now.expr) (F.post self.now.expr) }
        ensures { Reads (spec.thrown (spec.expression (holds self.now.classes.now) self.now.depth) at cursor.old) result cursor.new }
    {
        if !begins_expression(cursor.lead()) {
            return Ok(Expression::Rethrow(at));
        }
        let thrown = Boxed::new(self.alloc, self.expr(cursor, 0)?)?;
        Ok(Expression::Throw(thrown, at))
    }

    #[tactic(auto, unfolding(crate::specs::Expressions::deleted))]
    fn deleted(
        &self,
        is_global: bool,
        at: Span,
        cursor: &mut Cursor<'_>,
    ) -> Result<Expression, ReadFault>
        requires { Nests self.now.depth (F.pre self.now.expr) (F.post self.now.expr) }
        ensures { Reads (spec.deleted (spec.expression (holds self.now.classes.now) self.now.depth) is_global at cursor.old) result cursor.new }
    {
        let operand = Boxed::new(self.alloc, self.expr(cursor, 11)?)?;
        Ok(Expression::Delete(is_global, operand, at))
    }

    #[tactic(auto, unfolding(crate::specs::Expressions::storage))]
    fn storage(&self, at: Span, cursor: &mut Cursor<'_>) -> Result<Expression, ReadFault>
        requires { Nests self.now.depth (F.pre self.now.expr) (F.post self.now.expr) }
        ensures { Reads (spec.storage (spec.expression (holds self.now.classes.now) self.now.depth) at cursor.old) result cursor.new }
    {
        match cursor.lead() {
            Lead::Word(Word::New) => {
                cursor.pass();
                Ok(Expression::OperatorNew(self.given_arguments(cursor)?, at))
            }
            Lead::Word(Word::Delete) => {
                cursor.pass();
                Ok(Expression::OperatorDelete(self.given_arguments(cursor)?, at))
            }
            _ => Err(ReadFault::Refused),
        }
    }

    #[tactic(auto, unfolding(crate::specs::Expressions::initialized))]
    fn initialized(
        &self,
        is_global: bool,
        base: SimpleType,
        pointers: u32,
        at: Span,
        cursor: &mut Cursor<'_>,
    ) -> Result<Expression, ReadFault>
        requires { Nests self.now.depth (F.pre self.now.expr) (F.post self.now.expr) }
        ensures { Reads (spec.initialized (spec.expression (holds self.now.classes.now) self.now.depth) is_global base pointers at cursor.old) result cursor.new }
    {
        if let Some(how) = opening(cursor.lead()) {
            cursor.pass();
            let found = self.arguments(closing(how), cursor)?;
            return Ok(Expression::NewWith(is_global, base, pointers, how, found, at));
        }
        if is_reference(cursor.lead()) {
            return Err(ReadFault::Refused);
        }
        Ok(Expression::New(is_global, base, pointers, at))
    }

    #[tactic(auto, unfolding(crate::specs::Expressions::created))]
    fn created(
        &self,
        is_global: bool,
        at: Span,
        cursor: &mut Cursor<'_>,
    ) -> Result<Expression, ReadFault>
        requires { Nests self.now.depth (F.pre self.now.expr) (F.post self.now.expr) }
        ensures { Reads (spec.created (holds self.now.classes.now) (spec.expression (holds self.now.classes.now) self.now.depth) is_global at cursor.old) result cursor.new }
    {
        let base = simple_type(self.alloc, self.classes, cursor)?;
        let pointers = stars(cursor)?;
        self.initialized(is_global, base, pointers, at, cursor)
    }

    #[tactic(auto, unfolding(crate::specs::Expressions::global))]
    fn global(&self, at: Span, cursor: &mut Cursor<'_>) -> Result<Expression, ReadFault>
        requires { Nests self.now.depth (F.pre self.now.expr) (F.post self.now.expr) }
        ensures { Reads (spec.global (holds self.now.classes.now) (spec.expression (holds self.now.classes.now) self.now.depth) at cursor.old) result cursor.new }
    {
        match cursor.lead() {
            Lead::Word(Word::New) => {
                cursor.pass();
                self.created(true, at, cursor)
            }
            Lead::Word(Word::Delete) => {
                cursor.pass();
                self.deleted(true, at, cursor)
            }
            Lead::Word(Word::Operator) => {
                cursor.pass();
                let operand = self.storage(at, cursor)?;
                self.postfix(at, operand, cursor)
            }
            _ => Err(ReadFault::Refused),
        }
    }

    #[tactic(auto, unfolding(crate::specs::Expressions::cast))]
    fn cast(&self, at: Span, cursor: &mut Cursor<'_>) -> Result<Expression, ReadFault>
        requires { Nests self.now.depth (F.pre self.now.expr) (F.post self.now.expr) }
        ensures { Reads (spec.cast (holds self.now.classes.now) (spec.expression (holds self.now.classes.now) self.now.depth) at cursor.old) result cursor.new }
    {
        cursor.expect(Mark::Less)?;
        let of = type_id(self.alloc, self.classes, cursor)?;
        cursor.expect(Mark::Greater)?;
        let operand = Boxed::new(self.alloc, self.parenthesized(cursor)?)?;
        Ok(Expression::StaticCast(of, operand, at))
    }

    #[tactic(auto, unfolding(crate::specs::Expressions::library))]
    fn library(&self, at: Span, cursor: &mut Cursor<'_>) -> Result<Expression, ReadFault>
        requires { Nests self.now.depth (F.pre self.now.expr) (F.post self.now.expr) }
        ensures { Reads (spec.library (holds self.now.classes.now) (spec.expression (holds self.now.classes.now) self.now.depth) at cursor.old) result cursor.new }
    {
        cursor.expect(Mark::Scope)?;
        let called = cursor.any_name()?;
        if let Some(function) = library_function(called) {
            return Ok(Expression::StandardFunction(function, at));
        }
        let kind = library_type(self.alloc, self.classes, called, cursor)?;
        self.based(at, SimpleType { kind, span: at }, cursor)
    }

    #[tactic(auto, unfolding(crate::specs::Expressions::pathed))]
    fn pathed(&self, at: Span, cursor: &mut Cursor<'_>) -> Result<Expression, ReadFault>
        requires { Nests self.now.depth (F.pre self.now.expr) (F.post self.now.expr) }
        ensures { Reads (spec.pathed (holds self.now.classes.now) (spec.expression (holds self.now.classes.now) self.now.depth) at cursor.old) result cursor.new }
    {
        let path = path(self.alloc, cursor)?;
        if !names_class(self.classes, &path) {
            return Ok(Expression::Name(path));
        }
        let kind = SimpleTypeKind::Class(path);
        self.construction(SimpleType { kind, span: at }, cursor)
    }

    #[tactic(auto, unfolding(crate::specs::Expressions::named))]
    fn named(&self, at: Span, cursor: &mut Cursor<'_>) -> Result<Expression, ReadFault>
        requires { Nests self.now.depth (F.pre self.now.expr) (F.post self.now.expr) }
        ensures { Reads (spec.named (holds self.now.classes.now) (spec.expression (holds self.now.classes.now) self.now.depth) at cursor.old) result cursor.new }
    {
        if cursor.spells(b"std") {
            cursor.pass();
            return self.library(at, cursor);
        }
        if cursor.spells(b"corun") {
            cursor.pass();
            return of_corun(at, cursor);
        }
        self.pathed(at, cursor)
    }

    fn built(
        &self,
        at: Span,
        kind: Option<SimpleTypeKind>,
        cursor: &mut Cursor<'_>,
    ) -> Result<Expression, ReadFault>
        requires { Nests self.now.depth (F.pre self.now.expr) (F.post self.now.expr) }
        ensures { Reads (spec.built_by (holds self.now.classes.now) (spec.expression (holds self.now.classes.now) self.now.depth) at kind cursor.old) result cursor.new }
    {
        let Some(kind) = kind else {
            return Err(ReadFault::Refused);
        };
        cursor.pass();
        self.construction(SimpleType { kind, span: at }, cursor)
    }

    #[tactic(auto, unfolding(crate::specs::Expressions::operand))]
    fn operand(&self, at: Span, cursor: &mut Cursor<'_>) -> Result<Expression, ReadFault>
        requires { Nests self.now.depth (F.pre self.now.expr) (F.post self.now.expr) }
        ensures { Reads (spec.operand (holds self.now.classes.now) (spec.expression (holds self.now.classes.now) self.now.depth) at cursor.old) result cursor.new }
    {
        match cursor.lead() {
            Lead::Mark(Mark::OpenParen) => {
                let inner = Boxed::new(self.alloc, self.parenthesized(cursor)?)?;
                Ok(Expression::Parenthesized(inner, at))
            }
            Lead::Word(Word::StaticCast) => {
                cursor.pass();
                self.cast(at, cursor)
            }
            Lead::Name => self.named(at, cursor),
            lead => self.built(at, builtin(lead), cursor),
        }
    }

    #[tactic(auto, unfolding(crate::specs::Expressions::primary))]
    fn primary(&self, at: Span, cursor: &mut Cursor<'_>) -> Result<Expression, ReadFault>
        requires { Nests self.now.depth (F.pre self.now.expr) (F.post self.now.expr) }
        ensures { Reads (spec.primary (holds self.now.classes.now) (spec.expression (holds self.now.classes.now) self.now.depth) at cursor.old) result cursor.new }
    {
        if let Some(found) = literal(cursor.lead(), at) {
            cursor.pass();
            return Ok(found);
        }
        self.operand(at, cursor)
    }

    #[tactic(auto, unfolding(crate::specs::Expressions::prefix))]
    fn prefix(&self, at: Span, cursor: &mut Cursor<'_>) -> Result<Expression, ReadFault>
        requires { Nests self.now.depth (F.pre self.now.expr) (F.post self.now.expr) }
        ensures { Reads (spec.prefix (holds self.now.classes.now) (spec.expression (holds self.now.classes.now) self.now.depth) at cursor.old) result cursor.new }
    {
        match cursor.lead() {
            Lead::Word(Word::New) => {
                cursor.pass();
                self.created(false, at, cursor)
            }
            Lead::Word(Word::Delete) => {
                cursor.pass();
                self.deleted(false, at, cursor)
            }
            Lead::Mark(Mark::Scope) => {
                cursor.pass();
                self.global(at, cursor)
            }
            _ => {
                let primary = self.primary(at, cursor)?;
                self.postfix(at, primary, cursor)
            }
        }
    }

    #[tactic(auto, unfolding(crate::specs::Expressions::unary))]
    fn unary(&self, at: Span, cursor: &mut Cursor<'_>) -> Result<Expression, ReadFault>
        requires { Nests self.now.depth (F.pre self.now.expr) (F.post self.now.expr) }
        ensures { Reads (spec.unary (holds self.now.classes.now) (spec.expression (holds self.now.classes.now) self.now.depth) at cursor.old) result cursor.new }
    {
        let Some(op) = unary_operator(cursor.lead()) else {
            return self.prefix(at, cursor);
        };
        cursor.pass();
        let operand = Boxed::new(self.alloc, self.expr(cursor, 11)?)?;
        Ok(Expression::Unary(op, operand, at))
    }

    #[tactic(auto, unfolding(crate::specs::Expressions::whole))]
    fn whole(&self, at: Span, cursor: &mut Cursor<'_>) -> Result<Expression, ReadFault>
        requires { Nests self.now.depth (F.pre self.now.expr) (F.post self.now.expr) }
        ensures { Reads (spec.whole (holds self.now.classes.now) (spec.expression (holds self.now.classes.now) self.now.depth) at cursor.old) result cursor.new }
    {
        match cursor.lead() {
            Lead::Word(Word::CoYield) => {
                cursor.pass();
                let value = Boxed::new(self.alloc, self.expr(cursor, 0)?)?;
                Ok(Expression::Yield(value, at))
            }
            Lead::Word(Word::Throw) => {
                cursor.pass();
                self.thrown(at, cursor)
            }
            _ => {
                let operand = self.unary(at, cursor)?;
                self.after_unary(at, operand, cursor)
            }
        }
    }

    #[tactic(auto, unfolding(crate::specs::Expressions::level))]
    fn level(&self, least: u8, cursor: &mut Cursor<'_>) -> Result<Expression, ReadFault>
        requires { Nests self.now.depth (F.pre self.now.expr) (F.post self.now.expr) }
        ensures { Reads (spec.level (holds self.now.classes.now) (spec.expression (holds self.now.classes.now) self.now.depth) least cursor.old) result cursor.new }
    {
        let at = cursor.place();
        if least == 0 {
            return self.whole(at, cursor);
        }
        let operand = self.unary(at, cursor)?;
        self.operations(at, least, operand, cursor)
    }
}

/// An expression whose operators between operands bind at least as tightly as `least`; 0 is for a whole expression and 11 for
/// a unary one. At most `depth` nest in one another.
pub fn expression(
    alloc: Global,
    classes: &ClassNames,
    cursor: &mut Cursor<'_>,
    depth: usize,
    least: u8,
) -> Result<Expression, ReadFault>
    ensures { Reads (spec.expression (holds classes.now) depth least cursor.old) result cursor.new }
{
    if depth == 0 {
        return Err(ReadFault::Refused);
    }
    Grammar {
        alloc,
        classes,
        depth: depth - 1,
        expr: expression,
    }
    .level(least, cursor)
}
