ghost use Rattle.std.specs.Prelude.{◌≡◌, ◌&&◌, not, Some};
ghost use Rattle.co_core_tree.specs.Sizes.{dtor_of};
ghost use Rattle.co_core_tree.specs.declared.units.UnitParts.{UnitParts};
ghost use Rattle.std.specs.List.{list_all};
ghost use Rattle.co_core.specs.Bodies.{await_acts, func_acts};
ghost use Rattle.co_core.specs.Plans as spec;
ghost use Rattle.co_core_plans.specs.Rules.{follows};

use crate::callees::{callee, give_noexcept, give_other, is_other, is_other_if, take_other};
use crate::rules::{Every, Rule};
use crate::storage::destructor;
use co_base::{ClassId, FuncId, Num};
use co_core_acts::{Order, visit_await, visit_func};
use co_core_tree::{AwaitPlan, CoreFunc, FuncRole, PromisePlan, Returns, UnitParts};
use co_core_typed::is_plain;
use co_types::{ClassInfo, FuncInfo, Head, has_same_head};

/// Whether all acts of a function follow a rule.
fn all_follow(unit: &UnitParts, rule: Rule, func: &CoreFunc) -> bool
    ensures { result ≡ list_all (follows unit.now rule) (func_acts unit.now.funcs func.now) }
{
    let mut every = Every {
        unit,
        rule,
        holds: true,
    };
    visit_func(&mut every, unit.funcs.as_slice(), Order::Text, func);
    every.holds
}

/// Whether all acts of an initial or a final await follow a rule.
fn await_follows(unit: &UnitParts, rule: Rule, plan: &AwaitPlan) -> bool
    ensures { result ≡ list_all (follows unit.now rule) (await_acts unit.now.funcs plan.now) }
{
    let mut every = Every {
        unit,
        rule,
        holds: true,
    };
    visit_await(&mut every, unit.funcs.as_slice(), plan);
    every.holds
}

// ---- main

fn returns_other(unit: &UnitParts, returns: &Returns) -> bool
    ensures { result ≡ spec.returns_other unit.now returns.now }
{
    match returns {
        Returns::Void(func) => is_other(unit, *func),
        Returns::Value | Returns::Neither => true,
    }
}

fn plan_other(unit: &UnitParts, plan: &Option<PromisePlan>) -> bool
    ensures { result ≡ spec.plan_other unit.now plan.now }
{
    match plan {
        Some(plan) => is_other_if(unit, plan.ctor)
            && (take_other(unit, plan.take)
                && (is_other_if(unit, plan.on_null)
                    && (give_other(unit, plan.give)
                        && (is_other(unit, plan.result)
                            && (returns_other(unit, &plan.returns)
                                && is_other(unit, plan.unhandled)))))),
        None => true,
    }
}

fn func_other(unit: &UnitParts, func: &CoreFunc) -> bool
    ensures { result ≡ spec.func_other unit.now func.now }
{
    plan_other(unit, &func.plan) && all_follow(unit, Rule::Other, func)
}

fn funcs_other(unit: &UnitParts, funcs: &[CoreFunc]) -> bool
    ensures { result ≡ list_all (spec.func_other unit.now) funcs.now }
{
    funcs.iter().all(|func| func_other(unit, func))
}

fn members_other(unit: &UnitParts, members: &[FuncInfo]) -> bool
    ensures { result ≡ list_all (spec.member_other unit.now) members.now }
{
    members.iter().all(|member| is_other(unit, member.id))
}

fn info_other(unit: &UnitParts, info: &ClassInfo) -> bool
    ensures { result ≡ spec.info_other unit.now info.now }
{
    members_other(unit, info.funcs.as_slice())
}

/// Whether no member function of a class is `main`.
fn classes_other(unit: &UnitParts) -> bool
    ensures { result ≡ list_all (spec.info_other unit.now) unit.now.classes }
{
    let mut class = 0;
    while class < unit.classes.len() {
        if !info_other(unit, unit.classes.info(ClassId(class))) {
            return false;
        }
        class += 1;
    }
    true
}

fn is_main(unit: &UnitParts) -> bool
    ensures { result ≡ spec.is_main unit.now (spec.callee unit.now unit.now.main) }
{
    match callee(unit, unit.main) {
        Some(func) => is_main_func(func),
        None => false,
    }
}

/// `main` has no parameter, is no coroutine and gives an `int` [basic.start.main].
fn is_main_func(func: &CoreFunc) -> bool
    ensures { (u : UnitParts) → result ≡ spec.is_main u (Some func.now) }
{
    func.params.as_slice().is_empty()
        && (func.plan.is_none()
            && (is_plain(Some(func)) && has_same_head(func.result.head(), Head::Num(Num::Int))))
}

/// Whether `main` has no parameter and gives an `int`, is no coroutine, and nothing names it [basic.start.main].
pub fn main_fits(unit: &UnitParts) -> bool
    ensures { result ≡ spec.main_fits unit.now }
{
    is_main(unit) && (funcs_other(unit, unit.funcs.as_slice()) && classes_other(unit))
}

// ---- the final await

fn func_final(unit: &UnitParts, func: &CoreFunc) -> bool
    ensures { result ≡ spec.func_final unit.now func.now }
{
    match &func.plan {
        Some(plan) => await_follows(unit, Rule::Final, &plan.last),
        None => true,
    }
}

fn funcs_final(unit: &UnitParts, funcs: &[CoreFunc]) -> bool
    ensures { result ≡ list_all (spec.func_final unit.now) funcs.now }
{
    funcs.iter().all(|func| func_final(unit, func))
}

/// Whether no exception comes from the final awaits: they call noexcept functions alone, and nothing in them throws, suspends or
/// resumes [dcl.fct.def.coroutine].
pub fn finals_noexcept(unit: &UnitParts) -> bool
    ensures { result ≡ spec.finals_noexcept unit.now }
{
    funcs_final(unit, unit.funcs.as_slice())
}

// ---- storage

fn and_not(a: bool, b: bool) -> bool
    ensures { result ≡ (a && not b) }
{
    a && !b
}

fn func_storage(unit: &UnitParts, func: &CoreFunc) -> bool
    ensures { result ≡ spec.func_storage unit.now func.now }
{
    let mut every = Every {
        unit,
        rule: Rule::Storage,
        holds: true,
    };
    let awaits = visit_func(&mut every, unit.funcs.as_slice(), Order::Text, func);
    and_not(every.holds, awaits.in_new)
}

fn funcs_storage(unit: &UnitParts, funcs: &[CoreFunc]) -> bool
    ensures { result ≡ list_all (spec.func_storage unit.now) funcs.now }
{
    funcs.iter().all(|func| func_storage(unit, func))
}

/// Whether no await stands in a `New`, and each function that a `New` or a `Delete` names has the parameters and the result that
/// its place needs [expr.new] [expr.delete].
pub fn storage_fits(unit: &UnitParts) -> bool
    ensures { result ≡ spec.storage_fits unit.now }
{
    funcs_storage(unit, unit.funcs.as_slice())
}

// ---- destructors and functions that release storage

fn role_noexcept(role: &FuncRole, noexcept: bool) -> bool
    ensures { (u : UnitParts) → result ≡ spec.role_noexcept u role.now noexcept }
{
    match role {
        FuncRole::Dtor(_) => noexcept,
        FuncRole::Plain | FuncRole::Ctor(..) => true,
    }
}

fn plan_gives_noexcept(unit: &UnitParts, plan: &Option<PromisePlan>) -> bool
    ensures { result ≡ spec.plan_gives_noexcept unit.now plan.now }
{
    match plan {
        Some(plan) => give_noexcept(unit, plan.give),
        None => true,
    }
}

fn releases_noexcept(unit: &UnitParts, func: &CoreFunc) -> bool
    ensures { result ≡ (spec.plan_gives_noexcept unit.now func.now.plan && list_all (spec.act_gives_noexcept unit.now) (func_acts unit.now.funcs func.now)) }
{
    plan_gives_noexcept(unit, &func.plan) && all_follow(unit, Rule::Releases, func)
}

fn func_noexcept(unit: &UnitParts, func: &CoreFunc) -> bool
    ensures { result ≡ spec.func_noexcept unit.now func.now }
{
    if !role_noexcept(&func.role, func.noexcept) {
        return false;
    }
    releases_noexcept(unit, func)
}

fn funcs_noexcept(unit: &UnitParts, funcs: &[CoreFunc]) -> bool
    ensures { result ≡ list_all (spec.func_noexcept unit.now) funcs.now }
{
    funcs.iter().all(|func| func_noexcept(unit, func))
}

fn ends_class(role: &FuncRole, class: ClassId) -> bool
    ensures { (u : UnitParts) → result ≡ spec.is_destructor_role u class role.now }
{
    match role {
        FuncRole::Dtor(own) => own.0 == class.0,
        FuncRole::Plain | FuncRole::Ctor(..) => false,
    }
}

fn is_destructor(unit: &UnitParts, func: FuncId, class: ClassId) -> bool
    ensures { result ≡ spec.is_destructor unit.now class (spec.callee unit.now func) }
{
    match callee(unit, func) {
        Some(func) => ends_class(&func.role, class),
        None => false,
    }
}

fn is_destroyed(unit: &UnitParts, class: ClassId) -> bool
    ensures { result ≡ spec.destroys unit.now class (dtor_of unit.now.classes class) }
{
    match destructor(&unit.classes, class) {
        Some(info) => is_destructor(unit, info.id, class),
        None => true,
    }
}

fn are_destroyed(unit: &UnitParts) -> bool
    ensures { result ≡ spec.classes_destroyed unit.now 0 unit.now.classes }
{
    let mut class = 0;
    while class < unit.classes.len() {
        if !is_destroyed(unit, ClassId(class)) {
            return false;
        }
        class += 1;
    }
    true
}

/// Whether the destructor of each class is a function that ends its objects, and each destructor and each function that releases
/// storage is noexcept [class.dtor] [basic.stc.dynamic.deallocation].
pub fn ends_noexcept(unit: &UnitParts) -> bool
    ensures { result ≡ spec.ends_noexcept unit.now }
{
    are_destroyed(unit) && funcs_noexcept(unit, unit.funcs.as_slice())
}
