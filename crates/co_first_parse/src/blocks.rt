ghost use Rattle.std.specs.Prelude.{◌≡◌, ◌≤◌, ◌<◌, ◌==◌, [], length, OnOk, None, Some};
ghost use Rattle.co_first_parse.specs.Parse.{Steps};
ghost use Rattle.co_first_parse.specs.Place as spec;

use crate::cursor::Cursor;
use crate::fault::ParseFault;
use crate::frame::Frame;
use crate::names::Names;
use crate::statements::{assign, declare, enclosed, print};
use crate::token::{Kind, Mark};
use co_base::Text;
use co_first_tree::{Program, Stmt};
use sqlite_items::Items;
use std::alloc::Global;
use std::collections::LinkedList;
use std::marker::Model;
use std::mem::replace;

/// The blocks that may stand open inside the block of `main`.
const MAX_INNER: usize = 31;

/// The tokens that are left, the names, the open blocks from the innermost out, and the statements of the block so far.
#[derive(Drop)]
pub struct Parser<'a> {
    tokens: Cursor<'a>,
    names: Names,
    outer: LinkedList<Frame>,
    done: Items<Stmt>,
}

impl<'a> Model for Parser<'a> {
    ghost use Rattle.co_first_parse.specs.Place.{Place};
    ghost use Rattle.std.specs.Coded.{codes};
    ghost use Rattle.co_first_tree.specs.contracts.tree.Stmt as stmt;
    ghost use Rattle.co_first_parse.specs.contracts.token.Token as token;
    ghost use Rattle.co_first_parse.specs.contracts.frame.Frame as frame;

    ghost Value = { Place };

    ghost coded = { Prim.hlevel (codes, stmt.the_row.coded, token.the_row.coded, frame.the_row.coded) };

    ghost view = { λ p. record { tokens = p.tokens; known = p.names; outer = p.outer; done = p.done } };
}

impl<'a> Parser<'a> {
    pub fn new(alloc: Global, tokens: Cursor<'a>) -> Parser<'a>
        ensures { result ≡ spec.start tokens.entry }
    {
        Parser {
            tokens,
            names: Names::new(alloc),
            outer: LinkedList::new(alloc),
            done: Items::new(alloc),
        }
    }

    #[tactic(auto, unfolding(crate::specs::Place::assign_step))]
    fn assign(&mut self, alloc: Global, name: &Text) -> Result<(), ParseFault>
        ensures step { Steps (spec.assign_step name.now self.old) result self.new }
        ensures shrinks { length self.new.tokens ≤ length self.old.tokens }
    {
        let stmt = assign(alloc, &self.names, name, &mut self.tokens)?;
        self.done.push(stmt)?;
        Ok(())
    }

    #[tactic(auto, unfolding(crate::specs::Place::declare_step))]
    fn declare(&mut self, alloc: Global) -> Result<(), ParseFault>
        ensures step { Steps (spec.declare_step self.old) result self.new }
        ensures shrinks { length self.new.tokens ≤ length self.old.tokens }
    {
        let stmt = declare(alloc, &mut self.names, &mut self.tokens)?;
        self.done.push(stmt)?;
        Ok(())
    }

    #[tactic(auto, unfolding(crate::specs::Place::print_step))]
    fn print(&mut self, alloc: Global) -> Result<(), ParseFault>
        ensures step { Steps (spec.print_step self.old) result self.new }
        ensures shrinks { length self.new.tokens ≤ length self.old.tokens }
    {
        let stmt = print(alloc, &self.names, &mut self.tokens)?;
        self.done.push(stmt)?;
        Ok(())
    }

    /// `while` has been taken [stmt.while].
    #[tactic(auto, unfolding(crate::specs::Place::open_step))]
    fn open(&mut self, alloc: Global) -> Result<(), ParseFault>
        ensures step { Steps (spec.open_step self.old) result self.new }
        ensures shrinks { length self.new.tokens ≤ length self.old.tokens }
    {
        if MAX_INNER <= self.outer.len() {
            return Err(ParseFault::Syntax);
        }
        let sum = enclosed(alloc, Mark::OpenBrace, &self.names, &mut self.tokens)?;
        let visible = self.names.visible(alloc)?;
        let before = replace(&mut self.done, Items::new(alloc));
        self.outer.push_front(Frame {
            sum,
            before,
            visible,
        })?;
        Ok(())
    }

    /// `}` has been taken.
    #[tactic(auto, unfolding(crate::specs::Place::close_step))]
    fn close(&mut self) -> Result<(), ParseFault>
        ensures step { Steps (spec.close_step self.old) result self.new }
        ensures shrinks { length self.new.tokens ≤ length self.old.tokens }
    {
        let Some(frame) = self.outer.pop_front() else {
            return Err(ParseFault::Syntax);
        };
        let Frame {
            sum,
            before,
            visible,
        } = frame;
        let body = replace(&mut self.done, before);
        self.done.push(Stmt::While(sum, body))?;
        self.names.leave(visible);
        Ok(())
    }

    /// Reads a statement, opens a block or closes one.
    #[tactic(auto, unfolding(crate::specs::Place::step))]
    pub fn step(&mut self, alloc: Global) -> Result<(), ParseFault>
        ensures step { Steps (spec.step self.old) result self.new }
        ensures shorter { OnOk result (length self.new.tokens < length self.old.tokens) }
    {
        let Some(token) = self.tokens.next() else {
            return Err(ParseFault::Syntax);
        };
        match &token.kind {
            Kind::Name(name) => self.assign(alloc, name),
            Kind::Fixed(Mark::Long) => self.declare(alloc),
            Kind::Fixed(Mark::Corun) => self.print(alloc),
            Kind::Fixed(Mark::While) => self.open(alloc),
            Kind::Fixed(Mark::CloseBrace) => self.close(),
            _ => Err(ParseFault::Syntax),
        }
    }

    /// Whether all that is left is the end of `main`.
    #[tactic(auto, unfolding(crate::specs::Place::is_end))]
    pub fn is_end(&self) -> bool
        ensures { result ≡ spec.is_end self.now }
    {
        if self.outer.is_empty() {
            self.tokens.ends_main()
        } else {
            false
        }
    }

    pub fn into_program(self) -> Program
        ensures { result ≡ spec.program_of self.entry }
    {
        let Parser {
            tokens: _,
            names,
            outer: _,
            done,
        } = self;
        Program {
            names: names.into_names(),
            body: done,
        }
    }
}
