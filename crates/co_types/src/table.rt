ghost use Rattle.std.specs.Prelude.{◌≡◌, ◌<◌, ◌≤◌, ◌+◌, [], ◌∷◌, ◌++◌, All, length, slice_get, Some, IfSome, IfOk, OnOk, OnErr};
ghost use Rattle.std.specs.Option.{option_copied, option_map};
ghost use Rattle.co_types.specs.Classes.{IsCounted};
ghost use Rattle.co_types.specs.Names.{infos, IsEntry};

use crate::classes::ClassInfo;
use crate::names::{Names, names_of};
use co_base::{ClassId, NoMemory};
use std::alloc::Global;
use std::marker::Model;

/// A class of a table, and its members by their names.
#[derive(Debug, Drop)]
pub struct Entry {
    pub(crate) info: ClassInfo,
    pub(crate) names: Names,
}

/// The classes of a program, each by its number. Contracts see the list of their infos.
#[derive(Debug, Drop)]
pub struct ClassTable {
    alloc: Global,
    entries: Vec<Entry>,
}

impl Model for ClassTable {
    ghost use Rattle.std.specs.Prelude.{List, All, length, ◌≤◌};
    ghost use Rattle.co_types.specs.declared.classes.ClassInfo.{ClassInfo};
    ghost use Rattle.co_types.specs.Names.{infos, IsEntry};
    ghost use Rattle.co_types.specs.contracts.types.CoType as of_type;
    ghost use Rattle.std.specs.Coded.{codes};

    ghost Value = { List ClassInfo };

    ghost coded = { Prim.hlevel (codes, of_type.the_row.coded) };

    ghost view = { λ t. infos t.entries.items };

    ghost invariant = { λ t. (length t.entries.items ≤ 1024) × All IsEntry t.entries.items };
}

impl ClassTable {
    /// A table with no class, which takes no memory.
    pub fn new(alloc: Global) -> ClassTable
        ensures { result ≡ [] }
    {
        ClassTable {
            alloc,
            entries: Vec::new(alloc),
        }
    }

    /// Adds a class behind those held, and gives its number. After `NoMemory` the table is as before.
    pub fn add(&mut self, info: ClassInfo) -> Result<ClassId, NoMemory>
        requires room { length self.old < 1024 }
        requires counted { IsCounted info }
        ensures id { IfOk result (λ id. id.0 ≡ length self.old) }
        ensures ok { OnOk result (self.new ≡ self.old ++ info ∷ []) }
        ensures err { OnErr result (self.new ≡ self.old) }
    {
        let id = self.len();
        let names = names_of(self.alloc, &info)?;
        self.entries.push(Entry { info, names })?;
        Ok(ClassId(id))
    }

    /// How many classes are held.
    pub fn len(&self) -> u32
        ensures { result ≡ length self.now }
    {
        self.entries.len() as u32
    }

    /// The info of a class that is held.
    pub fn info(&self, class: ClassId) -> &ClassInfo
        requires { class.0 < length self.now }
        ensures { slice_get self.now class.0 ≡ Some result.now }
    {
        &self.entries.as_slice()[class.0 as usize].info
    }

    pub(crate) fn entry(&self, class: ClassId) -> Option<&Entry>
        ensures value { option_map (λ e. e.now.info) result ≡ slice_get self.now class.0 }
        ensures entry { IfSome result (λ e. IsEntry e.now) }
    {
        match self.entries.as_slice().get(class.0 as usize) {
            Some(entry) => Some(entry),
            None => None,
        }
    }

    pub(crate) fn get(&self, class: ClassId) -> Option<&ClassInfo>
        ensures value { option_copied result ≡ slice_get self.now class.0 }
        ensures counted { IfSome result (λ info. IsCounted info.now) }
    {
        match self.entry(class) {
            Some(entry) => Some(&entry.info),
            None => None,
        }
    }

    /// A table that is equal to this one.
    pub fn copy(&self, alloc: Global) -> Result<ClassTable, NoMemory>
        ensures { IfOk result (λ t. t ≡ self.now) }
    {
        let mut copied = ClassTable::new(alloc);
        copy_entries(alloc, &mut copied, self.entries.as_slice())?;
        Ok(copied)
    }
}

fn copy_entries(alloc: Global, copied: &mut ClassTable, entries: &[Entry]) -> Result<(), NoMemory>
    requires room { length copied.old + length entries.now ≤ 1024 }
    requires entries { All IsEntry entries.now }
    ensures { OnOk result (copied.new ≡ copied.old ++ infos entries.now) }
{
    for entry in entries {
        copied.add(entry.info.copy(alloc)?)?;
    }
    Ok(())
}
