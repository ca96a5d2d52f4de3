ghost use Rattle.std.specs.Prelude.{◌≡◌, ◌+◌, ◌<◌, ◌≤◌, [], ◌∷◌, ◌++◌, length, IfOk, IsTrue, None, Some};
ghost use Rattle.co_first_parse.specs.Parse as spec;
ghost use Rattle.co_first_parse.specs.Known.{no_names};

use crate::seen::Seen;
use co_base::{NoMemory, Text};
use sqlite_items::Items;
use std::alloc::Global;
use std::marker::Model;

const MAX_NAMES: usize = 32;

/// The variables that were declared so far, and those that are seen.
#[derive(Debug, Drop)]
pub struct Names {
    names: Items<Text>,
    visible: Seen,
}

impl Model for Names {
    ghost use Rattle.std.specs.Prelude.{◌≤◌, length};
    ghost use Rattle.co_first_parse.specs.Known.{Known, known_code};

    ghost Value = { Known };

    ghost coded = { known_code };

    ghost view = { λ n. record { names = n.names; visible = n.visible } };

    ghost invariant = { λ n. length n.names ≤ 32 };
}

fn index_of(names: &[Text], name: &[u8]) -> Option<u32>
    requires { length names.now ≤ 32 }
    ensures { result ≡ spec.index_from 0 names.now name.now }
{
    let mut index = 0;
    let mut rest = names;
    while let [other, next @ ..] = rest {
        if other.as_slice() == name {
            return Some(index);
        }
        index += 1;
        rest = next;
    }
    None
}

fn variable_in(names: &[Text], visible: &Seen, name: &[u8]) -> Option<u32>
    requires { length names.now ≤ 32 }
    ensures { result ≡ spec.seen_by visible.now (spec.index_from 0 names.now name.now) }
{
    let number = index_of(names, name)?;
    if visible.has(number) {
        Some(number)
    } else {
        None
    }
}

impl Names {
    pub fn new(alloc: Global) -> Names
        ensures { result ≡ no_names }
    {
        Names {
            names: Items::new(alloc),
            visible: Seen::new(alloc),
        }
    }

    /// The variable of this name, if it is seen here [basic.scope.block].
    #[tactic(auto, unfolding(crate::specs::Parse::variable))]
    pub fn variable(&self, name: &[u8]) -> Option<u32>
        ensures { result ≡ spec.variable self.now name.now }
    {
        variable_in(self.names.as_slice(), &self.visible, name)
    }

    /// Whether one more variable of this name may be declared.
    #[tactic(auto, unfolding(crate::specs::Parse::is_new))]
    pub fn is_new(&self, name: &[u8]) -> bool
        ensures value { result ≡ spec.is_new self.now name.now }
        ensures room { IsTrue result → length self.now.names < 32 }
    {
        if index_of(self.names.as_slice(), name).is_some() {
            return false;
        }
        self.names.len() < MAX_NAMES
    }

    /// Declares the variable, and answers its number.
    pub fn declare(&mut self, name: &Text) -> Result<u32, NoMemory>
        requires { length self.old.names < 32 }
        ensures number { IfOk result (λ number. number ≡ length self.old.names) }
        ensures names { IfOk result (λ _. self.new ≡ spec.declared self.old name.now) }
    {
        let number = self.names.len() as u32;
        let copy = name.copy()?;
        let mut names = &mut self.names;
        names.push(copy)?;
        self.visible.add(number)?;
        Ok(number)
    }

    /// What is seen here.
    pub fn visible(&self, alloc: Global) -> Result<Seen, NoMemory>
        ensures { IfOk result (λ visible. visible ≡ self.now.visible) }
    {
        self.visible.copy(alloc)
    }

    /// Ends a block before which this was seen.
    pub fn leave(&mut self, visible: Seen)
        ensures { self.new ≡ spec.left self.old visible }
    {
        self.visible = visible;
    }

    /// The names in the order of their declarations.
    pub fn into_names(self) -> Items<Text>
        ensures { result ≡ self.names }
    {
        let Names { names, visible: _ } = self;
        names
    }
}
