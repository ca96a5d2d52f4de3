//! Statements, by the next token [stmt.stmt].

ghost use Rattle.std.specs.Prelude.{◌≡◌};
ghost use Rattle.co_rules.specs.Names.{holds};
ghost use Rattle.co_reader.specs.Reading.{Reads};
ghost use Rattle.co_expressions.specs.Expressions.{expression};
ghost use Rattle.co_statements.specs.Statements as spec;
ghost use Rattle.co_statements.specs.NestsStatements.{NestsStatements};

use crate::locals::{caught, optional, returned, short};
use co_base::Span;
use co_expressions::Within;
use co_lex::{Mark, Word};
use co_reader::{Cursor, Lead, ReadFault};
use co_rules::ClassNames;
use co_tree::{Block, Expression, ForInit, Handler, Statement};
use sqlite_items::{Boxed, Items};
use std::alloc::Global;

fn statement_of(at: Span, init: ForInit) -> Statement
    ensures { result ≡ spec.statement_of at init }
{
    match init {
        ForInit::None => Statement::Empty(at),
        ForInit::Local(variable) => Statement::Local(variable),
        ForInit::Expression(value) => Statement::Expression(value, at),
    }
}

/// The reader of the statements inside another one, which is a parameter, so that each rule is proved by itself.
#[derive(Clone, Copy)]
pub struct Blocks<'c, F> {
    pub within: Within<'c>,
    pub statement: F,
}

impl<F: Fn(Global, &ClassNames, &mut Cursor<'_>, usize) -> Result<Statement, ReadFault>> Blocks<
    '_,
    F,
> {
    fn statement(&self, cursor: &mut Cursor<'_>) -> Result<Statement, ReadFault>
        requires { NestsStatements self.now.within.depth (F.pre self.now.statement) (F.post self.now.statement) }
        ensures { Reads (spec.statement (holds self.now.within.classes.now) self.now.within.depth cursor.old) result cursor.new }
    {
        (self.statement)(
            self.within.alloc,
            self.within.classes,
            cursor,
            self.within.depth,
        )
    }

    fn statements(&self, cursor: &mut Cursor<'_>) -> Result<Items<Statement>, ReadFault>
        requires { NestsStatements self.now.within.depth (F.pre self.now.statement) (F.post self.now.statement) }
        ensures { Reads (spec.statements (holds self.now.within.classes.now) (expression (holds self.now.within.classes.now) self.now.within.depth) (spec.statement (holds self.now.within.classes.now) self.now.within.depth) cursor.old) result cursor.new }
    {
        let mut found = Items::new(self.within.alloc);
        for _turn in 0..cursor.left() {
            if cursor.eat(Mark::CloseBrace) {
                return Ok(found);
            }
            found.push(self.statement(cursor)?)?;
        }
        Err(ReadFault::Refused)
    }

    #[tactic(auto, unfolding(crate::specs::Statements::block))]
    pub fn block(&self, cursor: &mut Cursor<'_>) -> Result<Block, ReadFault>
        requires { NestsStatements self.now.within.depth (F.pre self.now.statement) (F.post self.now.statement) }
        ensures { Reads (spec.block (holds self.now.within.classes.now) (expression (holds self.now.within.classes.now) self.now.within.depth) (spec.statement (holds self.now.within.classes.now) self.now.within.depth) cursor.old) result cursor.new }
    {
        let span = cursor.place();
        cursor.expect(Mark::OpenBrace)?;
        let statements = self.statements(cursor)?;
        Ok(Block { statements, span })
    }

    #[tactic(auto, unfolding(crate::specs::Statements::handler))]
    fn handler(&self, cursor: &mut Cursor<'_>) -> Result<Handler, ReadFault>
        requires { NestsStatements self.now.within.depth (F.pre self.now.statement) (F.post self.now.statement) }
        ensures { Reads (spec.handler (holds self.now.within.classes.now) (expression (holds self.now.within.classes.now) self.now.within.depth) (spec.statement (holds self.now.within.classes.now) self.now.within.depth) cursor.old) result cursor.new }
    {
        let span = cursor.place();
        cursor.expect_word(Word::Catch)?;
        cursor.expect(Mark::OpenParen)?;
        let caught = caught(&self.within, cursor)?;
        cursor.expect(Mark::CloseParen)?;
        let body = self.block(cursor)?;
        Ok(Handler { caught, body, span })
    }

    fn more_handlers(
        &self,
        first: Handler,
        cursor: &mut Cursor<'_>,
    ) -> Result<Items<Handler>, ReadFault>
        requires { NestsStatements self.now.within.depth (F.pre self.now.statement) (F.post self.now.statement) }
        ensures { Reads (spec.more_handlers (holds self.now.within.classes.now) (expression (holds self.now.within.classes.now) self.now.within.depth) (spec.statement (holds self.now.within.classes.now) self.now.within.depth) first cursor.old) result cursor.new }
    {
        let mut found = Items::new(self.within.alloc);
        found.push(first)?;
        for _turn in 0..cursor.left() {
            if !cursor.sees_word(Word::Catch) {
                return Ok(found);
            }
            found.push(self.handler(cursor)?)?;
        }
        Err(ReadFault::Refused)
    }

    #[tactic(auto, unfolding(crate::specs::Statements::tried))]
    fn tried(&self, at: Span, cursor: &mut Cursor<'_>) -> Result<Statement, ReadFault>
        requires { NestsStatements self.now.within.depth (F.pre self.now.statement) (F.post self.now.statement) }
        ensures { Reads (spec.tried (holds self.now.within.classes.now) (expression (holds self.now.within.classes.now) self.now.within.depth) (spec.statement (holds self.now.within.classes.now) self.now.within.depth) at cursor.old) result cursor.new }
    {
        let body = self.block(cursor)?;
        let first = self.handler(cursor)?;
        let handlers = self.more_handlers(first, cursor)?;
        Ok(Statement::Try(body, handlers, at))
    }

    #[tactic(auto, unfolding(crate::specs::Statements::branches))]
    fn branches(
        &self,
        at: Span,
        condition: Expression,
        first: Statement,
        cursor: &mut Cursor<'_>,
    ) -> Result<Statement, ReadFault>
        requires { NestsStatements self.now.within.depth (F.pre self.now.statement) (F.post self.now.statement) }
        ensures { Reads (spec.branches (holds self.now.within.classes.now) (expression (holds self.now.within.classes.now) self.now.within.depth) (spec.statement (holds self.now.within.classes.now) self.now.within.depth) at condition first cursor.old) result cursor.new }
    {
        let first = Boxed::new(self.within.alloc, first)?;
        if !cursor.eat_word(Word::Else) {
            return Ok(Statement::If(condition, first, at));
        }
        let second = Boxed::new(self.within.alloc, self.statement(cursor)?)?;
        Ok(Statement::IfElse(condition, first, second, at))
    }

    #[tactic(auto, unfolding(crate::specs::Statements::chosen))]
    fn chosen(&self, at: Span, cursor: &mut Cursor<'_>) -> Result<Statement, ReadFault>
        requires { NestsStatements self.now.within.depth (F.pre self.now.statement) (F.post self.now.statement) }
        ensures { Reads (spec.chosen (holds self.now.within.classes.now) (expression (holds self.now.within.classes.now) self.now.within.depth) (spec.statement (holds self.now.within.classes.now) self.now.within.depth) at cursor.old) result cursor.new }
    {
        let condition = self.within.parenthesized(cursor)?;
        let first = self.statement(cursor)?;
        self.branches(at, condition, first, cursor)
    }

    #[tactic(auto, unfolding(crate::specs::Statements::repeated))]
    fn repeated(&self, at: Span, cursor: &mut Cursor<'_>) -> Result<Statement, ReadFault>
        requires { NestsStatements self.now.within.depth (F.pre self.now.statement) (F.post self.now.statement) }
        ensures { Reads (spec.repeated (holds self.now.within.classes.now) (expression (holds self.now.within.classes.now) self.now.within.depth) (spec.statement (holds self.now.within.classes.now) self.now.within.depth) at cursor.old) result cursor.new }
    {
        let condition = self.within.parenthesized(cursor)?;
        let body = Boxed::new(self.within.alloc, self.statement(cursor)?)?;
        Ok(Statement::While(condition, body, at))
    }

    #[tactic(auto, unfolding(crate::specs::Statements::counted))]
    fn counted(&self, at: Span, cursor: &mut Cursor<'_>) -> Result<Statement, ReadFault>
        requires { NestsStatements self.now.within.depth (F.pre self.now.statement) (F.post self.now.statement) }
        ensures { Reads (spec.counted (holds self.now.within.classes.now) (expression (holds self.now.within.classes.now) self.now.within.depth) (spec.statement (holds self.now.within.classes.now) self.now.within.depth) at cursor.old) result cursor.new }
    {
        cursor.expect(Mark::OpenParen)?;
        let first = short(&self.within, cursor)?;
        let condition = optional(&self.within, Mark::Semicolon, cursor)?;
        let step = optional(&self.within, Mark::CloseParen, cursor)?;
        let body = Boxed::new(self.within.alloc, self.statement(cursor)?)?;
        Ok(Statement::For(first, condition, step, body, at))
    }

    #[tactic(auto, unfolding(crate::specs::Statements::jump))]
    fn jump(&self, at: Span, cursor: &mut Cursor<'_>) -> Result<Statement, ReadFault>
        requires { NestsStatements self.now.within.depth (F.pre self.now.statement) (F.post self.now.statement) }
        ensures { Reads (spec.jump (holds self.now.within.classes.now) (expression (holds self.now.within.classes.now) self.now.within.depth) (spec.statement (holds self.now.within.classes.now) self.now.within.depth) at cursor.old) result cursor.new }
    {
        match cursor.lead() {
            Lead::Word(Word::Break) => {
                cursor.pass();
                cursor.expect(Mark::Semicolon)?;
                Ok(Statement::Break(at))
            }
            Lead::Word(Word::Continue) => {
                cursor.pass();
                cursor.expect(Mark::Semicolon)?;
                Ok(Statement::Continue(at))
            }
            Lead::Word(Word::Return) => {
                cursor.pass();
                Ok(Statement::Return(returned(&self.within, cursor)?, at))
            }
            Lead::Word(Word::CoReturn) => {
                cursor.pass();
                let value = optional(&self.within, Mark::Semicolon, cursor)?;
                Ok(Statement::CoReturn(value, at))
            }
            _ => Ok(statement_of(at, short(&self.within, cursor)?)),
        }
    }

    #[tactic(auto, unfolding(crate::specs::Statements::statement_level))]
    fn level(&self, cursor: &mut Cursor<'_>) -> Result<Statement, ReadFault>
        requires { NestsStatements self.now.within.depth (F.pre self.now.statement) (F.post self.now.statement) }
        ensures { Reads (spec.statement_level (holds self.now.within.classes.now) (expression (holds self.now.within.classes.now) self.now.within.depth) (spec.statement (holds self.now.within.classes.now) self.now.within.depth) cursor.old) result cursor.new }
    {
        let at = cursor.place();
        match cursor.lead() {
            Lead::Mark(Mark::OpenBrace) => Ok(Statement::Block(self.block(cursor)?)),
            Lead::Word(Word::Try) => {
                cursor.pass();
                self.tried(at, cursor)
            }
            Lead::Word(Word::If) => {
                cursor.pass();
                self.chosen(at, cursor)
            }
            Lead::Word(Word::While) => {
                cursor.pass();
                self.repeated(at, cursor)
            }
            Lead::Word(Word::For) => {
                cursor.pass();
                self.counted(at, cursor)
            }
            _ => self.jump(at, cursor),
        }
    }
}

/// A statement. At most `depth` statements and expressions nest in one another.
pub fn statement(
    alloc: Global,
    classes: &ClassNames,
    cursor: &mut Cursor<'_>,
    depth: usize,
) -> Result<Statement, ReadFault>
    ensures { Reads (spec.statement (holds classes.now) depth cursor.old) result cursor.new }
{
    if depth == 0 {
        return Err(ReadFault::Refused);
    }
    let within = Within {
        alloc,
        classes,
        depth: depth - 1,
    };
    Blocks { within, statement }.level(cursor)
}

/// A block [stmt.block].
#[tactic(auto, unfolding(crate::specs::Statements::block_within))]
pub fn block(within: &Within<'_>, cursor: &mut Cursor<'_>) -> Result<Block, ReadFault>
    ensures { Reads (spec.block_within (holds within.now.classes.now) within.now.depth cursor.old) result cursor.new }
{
    Blocks {
        within: *within,
        statement,
    }
    .block(cursor)
}
