ghost use Rattle.std.specs.Prelude.{◌≡◌, [], ◌∷◌, ◌<◌, length, slice_get, IfOk, MatchOption};

use co_base::NoMemory;
use std::alloc::Global;
use std::marker::Model;

/// At most 1,024 things, with room for all of them. Contracts see the list, the newest first.
#[derive(Drop)]
pub struct Stack<T> {
    items: Vec<T>,
}

impl<T> Model for Stack<T> {
    ghost use Rattle.std.specs.Prelude.{List, ◌≤◌, reverse, vec_capacity};
    ghost use Rattle.std.specs.Coded.{coded_list};

    ghost Value = { List T };

    ghost coded = { coded_list T.code };

    ghost view = { λ s. reverse s.items.items };

    ghost invariant = { λ s. 1024 ≤ vec_capacity s.items };
}

impl<T: Drop> Stack<T> {
    /// The empty stack.
    pub fn new(alloc: Global) -> Result<Stack<T>, NoMemory>
        ensures { IfOk result (λ s. s ≡ []) }
    {
        let items = Vec::with_capacity(alloc, 1024)?;
        Ok(Stack { items })
    }

    pub fn len(&self) -> u64
        ensures { result ≡ length self.now }
    {
        self.items.len() as u64
    }

    /// One thing more, which takes no memory.
    pub fn push(&mut self, item: T)
        requires { length self.old < 1024 }
        ensures { self.new ≡ item ∷ self.old }
    {
        match self.items.push(item) {
            Ok(()) => {}
            Err(_) => unreachable!(),
        }
    }

    /// The newest leaves.
    pub fn pop(&mut self) -> Option<T>
        ensures { MatchOption result ((self.old ≡ []) × (self.new ≡ [])) (λ newest. self.old ≡ newest ∷ self.new) }
    {
        self.items.pop()
    }

    /// No thing is left.
    pub fn clear(&mut self)
        ensures { self.new ≡ [] }
    {
        self.items.clear();
    }
}

impl<T: Copy> Stack<T> {
    /// The newest.
    pub fn newest(&self) -> Option<T>
        ensures { result ≡ slice_get self.now 0 }
    {
        self.items.last().copied()
    }
}
