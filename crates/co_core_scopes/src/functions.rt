ghost use Rattle.std.specs.Prelude.{◌≡◌, List, IsTrue};
ghost use Rattle.std.specs.List.{list_all};
ghost use Rattle.co_core_tree.specs.declared.units.CoreFunc.{CoreFunc as Func};
ghost use Rattle.co_core.specs.Bodies.{copies_fulls, inits_fulls, role_fulls};
ghost use Rattle.co_core.specs.Counts.{counts_fit, slots_fit};
ghost use Rattle.co_core.specs.Ids.{func_ids_held, ids_held};
ghost use Rattle.co_core.specs.Scopes as spec;
ghost use Rattle.co_core_scopes.specs.Scoped.{fulls_seen, func_seen, plan_seen};

use crate::statements::visit_stmt;
use crate::visible::{Full, Visible, nothing_visible};
use co_core_tree::{CopyPlan, CoreFunc, FuncRole, Init, PromisePlan, UnitParts};
use co_core_walks::Scene;

fn visit_inits(v: &mut Visible<'_>, is: &[Init])
    ensures { (funcs : List Func) → v.new ≡ fulls_seen v.old (inits_fulls funcs is.now) }
{
    for i in is {
        v.visit_full(None, Full::Init(i));
    }
}

fn visit_copies(v: &mut Visible<'_>, copies: &[CopyPlan])
    ensures { (funcs : List Func) → v.new ≡ fulls_seen v.old (copies_fulls funcs copies.now) }
{
    for copy in copies {
        v.visit_full(None, Full::Init(&copy.init));
    }
}

fn visit_plan(v: &mut Visible<'_>, plan: &Option<PromisePlan>)
    ensures { (funcs : List Func) → v.new ≡ plan_seen funcs v.old plan.now }
{
    match plan {
        Some(plan) => {
            visit_inits(v, plan.take_args.as_slice());
            visit_copies(v, plan.copies.as_slice());
            visit_inits(v, plan.ctor_args.as_slice());
            v.visit_await(&plan.initial);
            v.visit_await(&plan.last);
        }
        None => {}
    }
}

fn visit_role(v: &mut Visible<'_>, role: &FuncRole)
    ensures { (funcs : List Func) → v.new ≡ fulls_seen v.old (role_fulls funcs role.now) }
{
    match role {
        FuncRole::Ctor(_, members) => visit_inits(v, members.as_slice()),
        FuncRole::Plain | FuncRole::Dtor(_) => {}
    }
}

fn visit_func(v: &mut Visible<'_>, func: &CoreFunc)
    ensures { (funcs : List Func) → v.new ≡ func_seen funcs v.old func.now }
{
    visit_role(v, &func.role);
    visit_plan(v, &func.plan);
    visit_stmt(v, &func.body);
}

/// Whether each slot that a function names is visible where it is named.
pub(crate) fn func_visible(scene: Scene<'_>) -> bool
    ensures { IsTrue (slots_fit scene.entry.func.now) → IsTrue (func_ids_held scene.entry.unit.now scene.entry.func.now) → IsTrue (spec.func_makes_once scene.entry.unit.now.funcs scene.entry.func.now) → result ≡ spec.func_visible scene.entry.unit.now.funcs scene.entry.func.now }
{
    let mut v = nothing_visible(scene.func);
    visit_func(&mut v, scene.func);
    v.holds
}

fn each_visible(unit: &UnitParts, funcs: &[CoreFunc]) -> bool
    requires slots { IsTrue (list_all slots_fit funcs.now) }
    requires ids { IsTrue (list_all (func_ids_held unit.now) funcs.now) }
    requires made { IsTrue (list_all (spec.func_makes_once unit.now.funcs) funcs.now) }
    ensures { result ≡ list_all (spec.func_visible unit.now.funcs) funcs.now }
{
    for func in funcs {
        let visible = func_visible(Scene { unit, func });
        if !visible {
            return false;
        }
    }
    true
}

/// Whether each slot is named only where it is visible: in its function, its scope, its full-expression or its handler. The
/// unit has at most 4,096 slots a function, names only what it has, and makes no slot at two places. It takes no memory.
pub fn all_visible(unit: &UnitParts) -> bool
    requires counts { IsTrue (counts_fit unit.now) }
    requires ids { IsTrue (ids_held unit.now) }
    requires made { IsTrue (spec.made_once unit.now) }
    ensures { result ≡ spec.all_visible unit.now }
{
    each_visible(unit, unit.funcs.as_slice())
}
