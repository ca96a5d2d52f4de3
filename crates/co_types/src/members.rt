ghost use Rattle.std.specs.Prelude.{◌≡◌};
ghost use Rattle.co_types.specs.Classes as spec;
ghost use Rattle.co_types.specs.Classes.{found_in, is_destructor_name};
ghost use Rattle.co_types.specs.Names.{AreNamesOf};

use crate::table::{ClassTable, Entry};
use co_base::ClassId;

/// A member of a class by its name: the number of a field, or that of the first function of the name.
#[derive(Clone, Copy, Debug, PartialEq, Eq)]
pub enum Found {
    None,
    Field(u32),
    Funcs(u32),
}

/// The member of this name [class.member.lookup]. Constructors and destructors have no name to be found by.
/// It takes no memory.
pub fn find_member(table: &ClassTable, class: ClassId, name: &[u8]) -> Found
    ensures { result ≡ spec.find_member table.now class name.now }
{
    match table.entry(class) {
        Some(entry) => member_of(entry, name),
        None => Found::None,
    }
}

fn member_of(entry: &Entry, name: &[u8]) -> Found
    requires { AreNamesOf entry.now.info entry.now.names }
    ensures { result ≡ found_in entry.now.info name.now }
{
    let class = entry.info.name.as_slice();
    if name == class || is_destructor(class, name) {
        return Found::None;
    }
    match entry.names.get(name) {
        Some(found) => found,
        None => Found::None,
    }
}

/// Whether this is the name of the class's destructor.
pub(crate) fn is_destructor(class: &[u8], name: &[u8]) -> bool
    ensures { result ≡ is_destructor_name class.now name.now }
{
    match name {
        [b'~', rest @ ..] => rest == class,
        _ => false,
    }
}
