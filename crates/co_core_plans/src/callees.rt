ghost use Rattle.std.specs.Prelude.{◌≡◌};
ghost use Rattle.std.specs.Option.{option_copied};
ghost use Rattle.co_core.specs.Plans as spec;

use co_base::FuncId;
use co_core_tree::{CoreFunc, GivePlan, TakePlan, UnitParts};
use co_core_typed::func_at;

/// The function of this number.
pub(crate) fn callee(unit: &UnitParts, func: FuncId) -> Option<&CoreFunc>
    ensures { option_copied result ≡ spec.callee unit.now func }
{
    func_at(unit.funcs.as_slice(), func)
}

pub(crate) fn is_noexcept(unit: &UnitParts, func: FuncId) -> bool
    ensures { result ≡ spec.is_noexcept unit.now (spec.callee unit.now func) }
{
    match callee(unit, func) {
        Some(func) => func.noexcept,
        None => false,
    }
}

pub(crate) fn give_noexcept(unit: &UnitParts, give: GivePlan) -> bool
    ensures { result ≡ spec.give_noexcept unit.now give }
{
    match give {
        GivePlan::Global => true,
        GivePlan::Own(func) => is_noexcept(unit, func),
        GivePlan::OwnSized(func) => is_noexcept(unit, func),
    }
}

pub(crate) fn take_noexcept(unit: &UnitParts, take: TakePlan) -> bool
    ensures { result ≡ spec.take_noexcept unit.now take }
{
    match take {
        TakePlan::Global => true,
        TakePlan::Own(func) => is_noexcept(unit, func),
        TakePlan::OwnWith(func) => is_noexcept(unit, func),
    }
}

/// Whether it is another function than `main`.
pub(crate) fn is_other(unit: &UnitParts, func: FuncId) -> bool
    ensures { result ≡ spec.is_other unit.now func }
{
    func.0 != unit.main.0
}

pub(crate) fn is_other_if(unit: &UnitParts, func: Option<FuncId>) -> bool
    ensures { result ≡ spec.is_other_if unit.now func }
{
    match func {
        Some(func) => is_other(unit, func),
        None => true,
    }
}

pub(crate) fn take_other(unit: &UnitParts, take: TakePlan) -> bool
    ensures { result ≡ spec.take_other unit.now take }
{
    match take {
        TakePlan::Global => true,
        TakePlan::Own(func) => is_other(unit, func),
        TakePlan::OwnWith(func) => is_other(unit, func),
    }
}

pub(crate) fn give_other(unit: &UnitParts, give: GivePlan) -> bool
    ensures { result ≡ spec.give_other unit.now give }
{
    match give {
        GivePlan::Global => true,
        GivePlan::Own(func) => is_other(unit, func),
        GivePlan::OwnSized(func) => is_other(unit, func),
    }
}
