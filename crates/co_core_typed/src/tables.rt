ghost use Rattle.std.specs.Prelude.{◌≡◌, slice_get, Some};
ghost use Rattle.std.specs.Option.{option_copied};
ghost use Rattle.std.specs.List.{list_all, list_any};
ghost use Rattle.co_types.specs.Types.{target_of};
ghost use Rattle.co_types.specs.Classes as classes;
ghost use Rattle.co_core_tree.specs.Slots.{slot_at};
ghost use Rattle.co_core_typing.specs.Gives as give;
ghost use Rattle.co_core_types.specs.Seen.{known_type, seen};
ghost use Rattle.co_core_typing.specs.Tables as spec;

use co_base::{ClassId, FuncId, Num, SlotId};
use co_core_tree::{CoreFunc, FuncRole, GlobalInfo, SlotInfo};
use co_core_types::{
    Known, View, is_number, is_place_of, is_reference, is_some_number_type, result_gives,
};
use co_types::{ClassInfo, ClassTable, CoType, FieldInfo, FuncInfo, Head, has_same_head};
use sqlite_items::at;

/// The slot of this number.
pub fn slot_of(func: &CoreFunc, slot: SlotId) -> Option<&SlotInfo>
    ensures { option_copied result ≡ slot_at func.now slot }
{
    at(func.slots.as_slice(), slot.0 as usize)
}

pub(crate) fn slot_place(func: &CoreFunc, slot: SlotId) -> View<'_>
    ensures { seen result ≡ spec.slot_place (slot_at func.now slot) }
{
    match slot_of(func, slot) {
        Some(info) => View::Place(Known::Of(&info.of)),
        None => View::Wrong,
    }
}

/// The type of a slot, and `void` where the function has no such slot.
pub fn slot_type(func: &CoreFunc, slot: SlotId) -> Known<'_>
    ensures { known_type result ≡ spec.slot_type func.now slot }
{
    match slot_of(func, slot) {
        Some(info) => Known::Of(&info.of),
        None => Known::Void,
    }
}

fn global_at(globals: &[GlobalInfo], global: u32) -> Option<&GlobalInfo>
    ensures { option_copied result ≡ slice_get globals.now global }
{
    at(globals, global as usize)
}

pub(crate) fn global_place(globals: &[GlobalInfo], global: u32) -> View<'_>
    ensures { seen result ≡ spec.global_place (slice_get globals.now global) }
{
    match global_at(globals, global) {
        Some(info) => View::Place(Known::Of(&info.of)),
        None => View::Wrong,
    }
}

/// The class of this number.
pub fn class_info(classes: &ClassTable, class: ClassId) -> Option<&ClassInfo>
    ensures { option_copied result ≡ slice_get classes.now class.0 }
{
    if class.0 < classes.len() {
        Some(classes.info(class))
    } else {
        None
    }
}

fn field_in(info: &ClassInfo, field: u32) -> View<'_>
    ensures { seen result ≡ give.field_in (slice_get info.now.fields field) }
{
    match at(info.fields.as_slice(), field as usize) {
        Some(field) => View::Place(Known::Of(&field.of)),
        None => View::Wrong,
    }
}

fn field_of(classes: &ClassTable, head: Head, field: u32) -> View<'_>
    ensures { seen result ≡ give.field_of_head classes.now head field }
{
    match head {
        Head::Class(class) => match class_info(classes, class) {
            Some(info) => field_in(info, field),
            None => View::Wrong,
        },
        _ => View::Wrong,
    }
}

/// The place of a field of an object of a class [expr.ref].
pub(crate) fn field_place<'a>(classes: &'a ClassTable, object: View<'a>, field: u32) -> View<'a>
    ensures { seen result ≡ give.field_place classes.now (seen object.entry) field }
{
    match object {
        View::Place(of) => field_of(classes, of.head(), field),
        _ => View::Wrong,
    }
}

/// The function of this number.
pub fn func_at(funcs: &[CoreFunc], func: FuncId) -> Option<&CoreFunc>
    ensures { option_copied result ≡ slice_get funcs.now func.0 }
{
    at(funcs, func.0 as usize)
}

pub(crate) fn call_gives(callee: Option<&CoreFunc>) -> View<'_>
    ensures { seen result ≡ spec.call_gives (option_copied callee.entry) }
{
    match callee {
        Some(func) => result_gives(&func.result),
        None => View::Wrong,
    }
}

/// Whether it is a function that is called by its name.
pub fn is_plain(callee: Option<&CoreFunc>) -> bool
    ensures { result ≡ spec.is_plain (option_copied callee.entry) }
{
    match callee {
        Some(func) => is_plain_role(&func.role),
        None => false,
    }
}

fn is_plain_role(role: &FuncRole) -> bool
    ensures { result ≡ spec.is_plain_role role.now }
{
    match role {
        FuncRole::Plain => true,
        FuncRole::Ctor(..) | FuncRole::Dtor(_) => false,
    }
}

fn constructs_head(role: &FuncRole, head: Head) -> bool
    ensures { result ≡ spec.constructs_head role.now head }
{
    match role {
        FuncRole::Ctor(class, _) => has_same_head(head, Head::Class(*class)),
        FuncRole::Plain | FuncRole::Dtor(_) => false,
    }
}

/// Whether it is a constructor of the class of this type.
pub(crate) fn constructs(callee: Option<&CoreFunc>, head: Head) -> bool
    ensures { result ≡ spec.constructs (option_copied callee.entry) head }
{
    match callee {
        Some(func) => constructs_head(&func.role, head),
        None => false,
    }
}

fn is_number_field(field: &FieldInfo) -> bool
    ensures { result ≡ spec.is_number_field field.now }
{
    is_some_number_type(field.of.head())
}

fn are_numbers(fields: &[FieldInfo]) -> bool
    ensures { result ≡ list_all spec.is_number_field fields.now }
{
    fields.iter().all(is_number_field)
}

fn is_class_target(class: ClassId, of: &CoType) -> bool
    ensures { result ≡ spec.is_class_target class (target_of of.now) }
{
    match of.target() {
        Some(to) => has_same_head(to.head(), Head::Class(class)),
        None => false,
    }
}

fn takes_itself(class: ClassId, params: &[CoType]) -> bool
    ensures { result ≡ spec.takes_itself class params.now }
{
    match params {
        [] => true,
        [param] => is_reference(param.head()) && is_class_target(class, param),
        _ => false,
    }
}

fn is_destructor_name(class: &[u8], name: &[u8]) -> bool
    ensures { result ≡ classes.is_destructor_name class.now name.now }
{
    match name {
        [b'~', rest @ ..] => rest == class,
        _ => false,
    }
}

fn is_constructor(class: ClassId, name: &[u8], func: &FuncInfo) -> bool
    ensures { result ≡ spec.is_self_constructor class name.now func.now }
{
    func.name.as_slice() == name && takes_itself(class, func.params.as_slice())
}

fn is_declared_special(class: ClassId, name: &[u8], func: &FuncInfo) -> bool
    ensures { result ≡ spec.is_declared_special class name.now func.now }
{
    !func.is_implicit
        && (is_destructor_name(name, func.name.as_slice()) || is_constructor(class, name, func))
}

fn declares_special(class: ClassId, name: &[u8], funcs: &[FuncInfo]) -> bool
    ensures { result ≡ list_any (spec.is_declared_special class name.now) funcs.now }
{
    let mut rest = funcs;
    while let [func, next @ ..] = rest {
        if is_declared_special(class, name, func) {
            return true;
        }
        rest = next;
    }
    false
}

fn is_thrown_info(class: ClassId, info: &ClassInfo) -> bool
    ensures { result ≡ spec.is_thrown_info class (Some info.now) }
{
    let fields = info.fields.as_slice();
    1 <= fields.len()
        && (fields.len() <= 3
            && (are_numbers(fields)
                && !declares_special(class, info.name.as_slice(), info.funcs.as_slice())))
}

/// Whether objects of the class may be thrown [except.throw].
pub fn is_thrown_class(classes: &ClassTable, class: ClassId) -> bool
    ensures { result ≡ spec.is_thrown_class classes.now class }
{
    match class_info(classes, class) {
        Some(info) => is_thrown_info(class, info),
        None => false,
    }
}

/// Whether what is given can be thrown as a value of this type [except.throw].
pub(crate) fn throw_fits(classes: &ClassTable, of: &CoType, view: View<'_>) -> bool
    ensures { result ≡ spec.throw_fits classes.now of.now (seen view.entry) }
{
    match of.head() {
        Head::Num(Num::Bool) => is_number(Num::Bool, view),
        Head::Num(Num::Int) => is_number(Num::Int, view),
        Head::Num(Num::Long) => is_number(Num::Long, view),
        Head::Class(class) => is_thrown_class(classes, class) && is_place_of(Known::Of(of), view),
        _ => false,
    }
}
