ghost use Rattle.std.specs.Prelude.{◌≡◌, ◌<◌, ◌^◌, ℕ, List, length, None, IfOk, OnOk};
ghost use Rattle.co_types.specs.Classes as spec;
ghost use Rattle.co_types.specs.Classes.{as_field, as_funcs, first_of, IsCounted};
ghost use Rattle.co_types.specs.Names.{noted, member_at, AreNamesOf};

use crate::classes::{ClassInfo, FieldInfo, FuncInfo};
use crate::members::Found;
use co_base::NoMemory;
use indexmap::IndexMap;
use std::alloc::Global;

/// The members of a class by their names, in the order in which the names are first seen.
#[derive(Debug, Drop)]
pub struct Names {
    by_name: IndexMap<Vec<u8>, Found>,
}

impl Names {
    /// No names, which takes no memory.
    pub(crate) fn new(alloc: Global) -> Names
        ensures { (name : List ℕ) → member_at result name ≡ None }
    {
        Names {
            by_name: IndexMap::new(alloc),
        }
    }

    /// Notes a member by its name, unless the name is there.
    pub(crate) fn note(&mut self, alloc: Global, name: &[u8], member: Found) -> Result<(), NoMemory>
        ensures ok { OnOk result ((other : List ℕ) → member_at self.new other ≡ noted (member_at self.old other) name.now member other) }
    {
        if self.by_name.contains_key(name) {
            return Ok(());
        }
        let key = Vec::from_slice(alloc, name)?;
        self.by_name.insert(key, member)?;
        Ok(())
    }

    pub(crate) fn get(&self, name: &[u8]) -> Option<Found>
        ensures { result ≡ member_at self.now name.now }
    {
        self.by_name.get(name).copied()
    }
}

/// The members of a class by their names: its fields, and then its functions.
pub(crate) fn names_of(alloc: Global, info: &ClassInfo) -> Result<Names, NoMemory>
    requires { IsCounted info.now }
    ensures { IfOk result (AreNamesOf info.now) }
{
    let mut names = Names::new(alloc);
    note_fields(alloc, &mut names, info.fields.as_slice())?;
    note_funcs(alloc, &mut names, info.funcs.as_slice())?;
    Ok(names)
}

fn note_fields(alloc: Global, names: &mut Names, fields: &[FieldInfo]) -> Result<(), NoMemory>
    requires { length fields.now < 2 ^ 32 }
    ensures { OnOk result ((name : List ℕ) → member_at names.new name ≡ first_of (member_at names.old name) (as_field (spec.field_named 0 fields.now name))) }
{
    let mut index = 0;
    let mut rest = fields;
    while let [field, next @ ..] = rest {
        names.note(alloc, field.name.as_slice(), Found::Field(index))?;
        index += 1;
        rest = next;
    }
    Ok(())
}

fn note_funcs(alloc: Global, names: &mut Names, funcs: &[FuncInfo]) -> Result<(), NoMemory>
    requires { length funcs.now < 2 ^ 32 }
    ensures { OnOk result ((name : List ℕ) → member_at names.new name ≡ first_of (member_at names.old name) (as_funcs (spec.func_named 0 funcs.now name))) }
{
    let mut index = 0;
    let mut rest = funcs;
    while let [func, next @ ..] = rest {
        names.note(alloc, func.name.as_slice(), Found::Funcs(index))?;
        index += 1;
        rest = next;
    }
    Ok(())
}
