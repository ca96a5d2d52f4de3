ghost use Rattle.std.specs.Prelude.{◌≡◌, length};
ghost use Rattle.std.specs.List.{list_all};
ghost use Rattle.co_core.specs.Ids as spec;

use co_base::{ClassId, FuncId};
use co_core_tree::{GlobalInfo, UnitParts};
use co_types::{AliasInfo, ClassInfo, CoType, FieldInfo, FuncInfo};

pub fn class_held(unit: &UnitParts, class: ClassId) -> bool
    ensures { result ≡ spec.class_held unit.now class }
{
    class.0 < unit.classes.len()
}

pub fn func_held(unit: &UnitParts, func: FuncId) -> bool
    ensures { result ≡ spec.func_held unit.now func }
{
    (func.0 as usize) < unit.funcs.len()
}

pub fn class_held_if(unit: &UnitParts, class: Option<ClassId>) -> bool
    ensures { result ≡ spec.class_held_if unit.now class }
{
    match class {
        Some(class) => class_held(unit, class),
        None => true,
    }
}

pub fn func_held_if(unit: &UnitParts, func: Option<FuncId>) -> bool
    ensures { result ≡ spec.func_held_if unit.now func }
{
    match func {
        Some(func) => func_held(unit, func),
        None => true,
    }
}

/// Whether each class that a type names is in the table.
#[tactic(auto, using(crate::proofs::Opening::opened))]
pub fn type_held(unit: &UnitParts, of: &CoType) -> bool
    ensures { result ≡ spec.type_held unit.now of.now }
{
    match of {
        CoType::Class(class) => class_held(unit, *class),
        CoType::Handle(promise) => class_held_if(unit, *promise),
        CoType::Pointer(to) => type_held(unit, to.get()),
        CoType::Ref(to) => type_held(unit, to.get()),
        CoType::ConstRef(to) => type_held(unit, to.get()),
        CoType::RefRef(to) => type_held(unit, to.get()),
        CoType::Void
        | CoType::Num(_)
        | CoType::Atomic(_)
        | CoType::ExceptionPtr
        | CoType::SuspendAlways
        | CoType::SuspendNever
        | CoType::NullPtr => true,
    }
}

fn field_held(unit: &UnitParts, field: &FieldInfo) -> bool
    ensures { result ≡ spec.field_held unit.now field.now }
{
    type_held(unit, &field.of)
}

fn types_held(unit: &UnitParts, types: &[CoType]) -> bool
    ensures { result ≡ list_all (spec.type_held unit.now) types.now }
{
    for of in types {
        let fits = type_held(unit, of);
        if !fits {
            return false;
        }
    }
    true
}

fn member_held(unit: &UnitParts, member: &FuncInfo) -> bool
    ensures { result ≡ spec.member_held unit.now member.now }
{
    func_held(unit, member.id)
        && (type_held(unit, &member.result) && types_held(unit, member.params.as_slice()))
}

fn alias_held(unit: &UnitParts, alias: &AliasInfo) -> bool
    ensures { result ≡ spec.alias_held unit.now alias.now }
{
    type_held(unit, &alias.of)
}

fn fields_held(unit: &UnitParts, fields: &[FieldInfo]) -> bool
    ensures { result ≡ list_all (spec.field_held unit.now) fields.now }
{
    for field in fields {
        let fits = field_held(unit, field);
        if !fits {
            return false;
        }
    }
    true
}

fn members_held(unit: &UnitParts, members: &[FuncInfo]) -> bool
    ensures { result ≡ list_all (spec.member_held unit.now) members.now }
{
    for member in members {
        let fits = member_held(unit, member);
        if !fits {
            return false;
        }
    }
    true
}

fn aliases_held(unit: &UnitParts, aliases: &[AliasInfo]) -> bool
    ensures { result ≡ list_all (spec.alias_held unit.now) aliases.now }
{
    for alias in aliases {
        let fits = alias_held(unit, alias);
        if !fits {
            return false;
        }
    }
    true
}

fn info_held(unit: &UnitParts, info: &ClassInfo) -> bool
    ensures { result ≡ spec.info_held unit.now info.now }
{
    class_held_if(unit, info.outer)
        && (fields_held(unit, info.fields.as_slice())
            && (members_held(unit, info.funcs.as_slice())
                && aliases_held(unit, info.aliases.as_slice())))
}

/// Whether each number that a class names is in its table.
pub fn classes_held(unit: &UnitParts) -> bool
    ensures { result ≡ list_all (spec.info_held unit.now) unit.now.classes }
{
    for class in 0..unit.classes.len() {
        let fits = info_held(unit, unit.classes.info(ClassId(class)));
        if !fits {
            return false;
        }
    }
    true
}

fn global_held(unit: &UnitParts, global: &GlobalInfo) -> bool
    ensures { result ≡ spec.global_held unit.now global.now }
{
    type_held(unit, &global.of)
}

/// Whether each class that the type of a global names is in the table.
pub fn globals_held(unit: &UnitParts, globals: &[GlobalInfo]) -> bool
    ensures { result ≡ list_all (spec.global_held unit.now) globals.now }
{
    for global in globals {
        let fits = global_held(unit, global);
        if !fits {
            return false;
        }
    }
    true
}
