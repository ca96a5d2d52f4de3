ghost use Rattle.std.specs.Prelude.{◌≡◌, ◌&&◌};
ghost use Rattle.co_core.specs.Plans as spec;
ghost use Rattle.co_core_params.specs.Limited.{names_copies};

use crate::slots::is_param_slot;
use co_core_acts::{Order, Visitor, visit_await, visit_inits, visit_stmt};
use co_core_tree::{CoreExpr, CoreFunc, Init, PromisePlan};

/// Whether no act so far names a parameter of the function.
#[derive(Drop)]
pub(crate) struct Unnamed<'a> {
    pub func: &'a CoreFunc,
    pub holds: bool,
}

fn names_no_param(func: &CoreFunc, e: &CoreExpr) -> bool
    ensures { result ≡ spec.names_no_param_at func.now e.now }
{
    match e {
        CoreExpr::Slot(slot, _) => !is_param_slot(func, *slot),
        _ => true,
    }
}

impl Visitor for Unnamed<'_> {
    ghost use Rattle.co_core_params.specs.Unnamed.{unnamed_after};

    ghost after = { unnamed_after };

    fn does(&mut self, _conditional: bool, e: &CoreExpr) {
        self.holds = self.holds && names_no_param(self.func, e);
    }

    fn passes(&mut self, _e: &CoreExpr) {}

    fn starts(&mut self, _init: &Init) {}

    fn keeps_expr(&mut self, _e: &CoreExpr) {}

    fn keeps_init(&mut self, _init: &Init) {}
}

/// Whether the promise's constructor, the body and the initial and the final await name no parameter, but copies in place of it
/// [dcl.fct.def.coroutine].
pub(crate) fn names_copies(funcs: &[CoreFunc], func: &CoreFunc, plan: &PromisePlan) -> bool
    ensures { result ≡ names_copies funcs.now func.now plan.now }
{
    let mut unnamed = Unnamed { func, holds: true };
    visit_stmt(&mut unnamed, funcs, Order::Text, &func.body);
    visit_await(&mut unnamed, funcs, &plan.last);
    visit_await(&mut unnamed, funcs, &plan.initial);
    visit_inits(&mut unnamed, funcs, plan.ctor_args.as_slice());
    unnamed.holds
}
