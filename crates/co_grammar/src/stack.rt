ghost use Rattle.std.specs.Prelude.{◌≡◌, ◌∷◌, ◌++◌, [], OnOk, OnErr, IfOk, MatchOption};
ghost use Rattle.co_grammar.specs.Machine as spec;

use co_base::NoMemory;
use co_rules::Symbol;
use std::alloc::Global;
use std::marker::Model;

/// What a file still has to bring: symbols, of which the next is on top. Contracts see the list, from the top on.
#[derive(Drop)]
pub struct Stack {
    symbols: Vec<Symbol>,
    depth: usize,
}

impl Model for Stack {
    ghost use Rattle.std.specs.Prelude.{◌≡◌, List, reverse};
    ghost use Rattle.co_rules.specs.declared.symbol.Symbol.{Symbol};
    ghost use Rattle.co_grammar.specs.Machine.{levels};

    ghost Value = { List Symbol };

    ghost view = { λ s. reverse s.symbols.items };

    ghost invariant = { λ s. s.depth ≡ levels (reverse s.symbols.items) };
}

fn is_close(symbol: Symbol) -> bool
    ensures { result ≡ spec.is_close symbol }
{
    matches!(symbol, Symbol::Close)
}

impl Stack {
    /// The empty stack, which takes no memory.
    pub fn new(alloc: Global) -> Stack
        ensures { result ≡ [] }
    {
        Stack {
            symbols: Vec::new(alloc),
            depth: 0,
        }
    }

    pub fn is_empty(&self) -> bool
        ensures { result ≡ spec.is_nil self.now }
    {
        self.symbols.is_empty()
    }

    /// How many nesting levels are open: the `Close` symbols on the stack.
    pub fn levels(&self) -> usize
        ensures { result ≡ spec.levels self.now }
    {
        self.depth
    }

    /// One symbol more, on top.
    pub fn push(&mut self, symbol: Symbol) -> Result<(), NoMemory>
        ensures ok { OnOk result (self.new ≡ symbol ∷ self.old) }
        ensures err { OnErr result (self.new ≡ self.old) }
    {
        self.symbols.push(symbol)?;
        if is_close(symbol) {
            self.depth += 1;
        }
        Ok(())
    }

    /// The top leaves.
    pub fn pop(&mut self) -> Option<Symbol>
        ensures { MatchOption result ((self.old ≡ []) × (self.new ≡ [])) (λ top. self.old ≡ top ∷ self.new) }
    {
        let symbol = self.symbols.pop()?;
        if is_close(symbol) {
            self.depth -= 1;
        }
        Some(symbol)
    }

    /// These symbols more, the first one on top.
    pub(crate) fn push_all(&mut self, body: &[Symbol]) -> Result<(), NoMemory>
        ensures { OnOk result (self.new ≡ body.now ++ self.old) }
    {
        let mut left = body.len();
        while 0 < left {
            left -= 1;
            self.push(body[left])?;
        }
        Ok(())
    }
}
