ghost use Rattle.std.specs.Prelude.{◌≡◌, IsTrue};
ghost use Rattle.std.specs.List.{list_all};
ghost use Rattle.co_core.specs.Counts.{counts_fit};
ghost use Rattle.co_core.specs.Plans as spec;
ghost use Rattle.co_core_params.specs.Limited as limited;

use crate::marks::{copies_differ, slots_differ};
use crate::names::names_copies;
use crate::slots::{
    are_params, copies_params, copy_count, has_promise, param_count, promise_count,
};
use co_base::ClassId;
use co_core_tree::{CoreFunc, PromisePlan, UnitParts};

/// Whether the parameters' slots are those of kind Param, each once.
fn lists_params(func: &CoreFunc) -> bool
    ensures { result ≡ limited.lists_params func.now }
{
    let params = func.params.as_slice();
    are_params(func, params)
        && (slots_differ(params) && params.len() == param_count(func.slots.as_slice()))
}

fn has_no_copies(func: &CoreFunc) -> bool
    ensures { result ≡ limited.has_no_copies func.now }
{
    let slots = func.slots.as_slice();
    promise_count(slots) == 0 && copy_count(slots) == 0
}

fn has_one_promise(func: &CoreFunc, class: ClassId) -> bool
    ensures { result ≡ limited.has_one_promise func.now class }
{
    let slots = func.slots.as_slice();
    promise_count(slots) == 1 && has_promise(class, slots)
}

/// Whether there is one copy of each parameter.
fn has_copies(func: &CoreFunc, plan: &PromisePlan) -> bool
    ensures { result ≡ limited.has_copies func.now plan.now }
{
    let copies = plan.copies.as_slice();
    copies_params(func, func.params.as_slice(), copies)
        && (copies_differ(copies) && copies.len() == copy_count(func.slots.as_slice()))
}

fn plan_params(funcs: &[CoreFunc], func: &CoreFunc) -> bool
    ensures { result ≡ limited.plan_params funcs.now func.now func.now.plan }
{
    match &func.plan {
        Some(plan) => has_one_promise(func, plan.promise)
            && (has_copies(func, plan) && names_copies(funcs, func, plan)),
        None => has_no_copies(func),
    }
}

pub(crate) fn func_params(funcs: &[CoreFunc], func: &CoreFunc) -> bool
    ensures { result ≡ limited.func_params funcs.now func.now }
{
    lists_params(func) && plan_params(funcs, func)
}

fn each_lists_params(funcs: &[CoreFunc]) -> bool
    ensures { result ≡ list_all (limited.func_params funcs.now) funcs.now }
{
    funcs.iter().all(|func| func_params(funcs, func))
}

/// Whether the parameters of each function are its slots of kind Param, each once, and a coroutine has one promise, of the class
/// of its plan, and one copy of each parameter, which it names in place of the parameter [dcl.fct.def.coroutine]. No function
/// has more than 4,096 slots. It takes no memory.
pub fn params_listed(unit: &UnitParts) -> bool
    requires counts { IsTrue (counts_fit unit.now) }
    ensures { result ≡ spec.params_listed unit.now }
{
    each_lists_params(unit.funcs.as_slice())
}
