ghost use Rattle.std.specs.Prelude.{◌≡◌, Bool};
ghost use Rattle.co_core_tree.specs.Acts.{Does, Starts};
ghost use Rattle.co_core.specs.Plans as plan;
ghost use Rattle.co_core_plans.specs.Rules as spec;

use crate::callees::{
    give_noexcept, give_other, is_noexcept, is_other, is_other_if, take_noexcept, take_other,
};
use crate::storage::{delete_fits, new_fits};
use co_core_acts::Visitor;
use co_core_tree::{CoreExpr, HandleOp, Init, UnitParts};

/// A rule on each act of an evaluation.
#[derive(Clone, Copy)]
pub(crate) enum Rule {
    /// What releases storage is noexcept.
    Releases,
    /// No exception comes from the act, and it neither suspends nor resumes.
    Final,
    /// It does not name `main`.
    Other,
    /// The functions that a `New` or a `Delete` names fit their places.
    Storage,
}

/// Whether all acts follow a rule.
#[derive(Drop)]
pub(crate) struct Every<'a> {
    pub unit: &'a UnitParts,
    pub rule: Rule,
    pub holds: bool,
}

#[tactic(auto, using(crate::proofs::Opening::opened))]
fn releases(unit: &UnitParts, e: &CoreExpr) -> bool
    ensures { result ≡ plan.expr_gives_noexcept unit.now e.now }
{
    match e {
        CoreExpr::New(plan) => give_noexcept(unit, plan.get().give),
        CoreExpr::Delete(plan) => give_noexcept(unit, plan.get().give),
        _ => true,
    }
}

fn resumes(op: HandleOp) -> bool
    ensures { result ≡ spec.is_resume op }
{
    match op {
        HandleOp::Resume => true,
        _ => false,
    }
}

#[tactic(auto, using(crate::proofs::Opening::opened))]
fn is_final(unit: &UnitParts, e: &CoreExpr) -> bool
    ensures { result ≡ plan.expr_final unit.now e.now }
{
    match e {
        CoreExpr::Call(func, _, _) => is_noexcept(unit, *func),
        CoreExpr::Throw(..) => false,
        CoreExpr::Rethrow(_) => false,
        CoreExpr::RethrowPtr(..) => false,
        CoreExpr::Await(_) => false,
        CoreExpr::Handle(op, _, _) => !resumes(*op),
        CoreExpr::New(plan) => take_noexcept(unit, plan.get().take),
        _ => true,
    }
}

#[tactic(auto, using(crate::proofs::Opening::opened))]
fn is_final_init(unit: &UnitParts, init: &Init) -> bool
    ensures { result ≡ plan.init_final unit.now init.now }
{
    match init {
        Init::Ctor(func, _) => is_noexcept(unit, *func),
        _ => true,
    }
}

#[tactic(auto, using(crate::proofs::Opening::opened))]
fn names_other(unit: &UnitParts, e: &CoreExpr) -> bool
    ensures { result ≡ plan.expr_other unit.now e.now }
{
    match e {
        CoreExpr::Call(func, _, _) => is_other(unit, *func),
        CoreExpr::New(plan) => take_other(unit, plan.get().take)
            && give_other(unit, plan.get().give),
        CoreExpr::Delete(plan) => is_other_if(unit, plan.get().destroy)
            && give_other(unit, plan.get().give),
        _ => true,
    }
}

#[tactic(auto, using(crate::proofs::Opening::opened))]
fn starts_other(unit: &UnitParts, init: &Init) -> bool
    ensures { result ≡ plan.init_other unit.now init.now }
{
    match init {
        Init::Ctor(func, _) => is_other(unit, *func),
        _ => true,
    }
}

#[tactic(auto, using(crate::proofs::Opening::opened))]
fn functions_fit(unit: &UnitParts, e: &CoreExpr) -> bool
    ensures { result ≡ spec.expr_functions unit.now e.now }
{
    match e {
        CoreExpr::New(plan) => new_fits(unit, plan.get()),
        CoreExpr::Delete(plan) => delete_fits(unit, plan.get()),
        _ => true,
    }
}

impl Rule {
    fn allows(self, unit: &UnitParts, e: &CoreExpr) -> bool
        ensures { (c : Bool) → result ≡ spec.follows unit.now self (Does c e.now) }
    {
        match self {
            Rule::Releases => releases(unit, e),
            Rule::Final => is_final(unit, e),
            Rule::Other => names_other(unit, e),
            Rule::Storage => functions_fit(unit, e),
        }
    }

    fn allows_init(self, unit: &UnitParts, init: &Init) -> bool
        ensures { result ≡ spec.follows unit.now self (Starts init.now) }
    {
        match self {
            Rule::Final => is_final_init(unit, init),
            Rule::Other => starts_other(unit, init),
            Rule::Releases | Rule::Storage => true,
        }
    }
}

impl Visitor for Every<'_> {
    ghost use Rattle.co_core_plans.specs.Every.{every_after};

    ghost after = { every_after };

    fn does(&mut self, _conditional: bool, e: &CoreExpr) {
        self.holds = self.holds && self.rule.allows(self.unit, e);
    }

    fn passes(&mut self, _e: &CoreExpr) {}

    fn starts(&mut self, init: &Init) {
        self.holds = self.holds && self.rule.allows_init(self.unit, init);
    }

    fn keeps_expr(&mut self, _e: &CoreExpr) {}

    fn keeps_init(&mut self, _init: &Init) {}
}
