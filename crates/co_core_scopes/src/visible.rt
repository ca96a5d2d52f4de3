ghost use Rattle.std.specs.Prelude.{◌≡◌, List, flat_map, fold, refl};
ghost use Rattle.co_core_tree.specs.declared.units.CoreFunc.{CoreFunc as Func};
ghost use Rattle.co_core_tree.specs.Slots as slots;
ghost use Rattle.co_core_scopes.specs.Makes.{slot_list};
ghost use Rattle.co_core_scopes.specs.Scoped.{Begun, acted, entered, expr_seen, full_acts, full_seen, named, slot_seen, unscoped, walked};
ghost use Rattle.co_core_scopes.specs.Scoped as spec;
ghost use Rattle.co_core_scopes.specs.Sets.{local_of};

use crate::kinds::{is_held, is_lasting};
use crate::sets::SlotSet;
use co_base::SlotId;
use co_core_tree::{AwaitPlan, CoreExpr, CoreFunc, CoreStmt, Init};
use co_core_walks::{Visitor, walk_await, walk_expr, walk_init};

/// What is done at each act of a full-expression: the slots that it makes are put into a set, the slots that it names are
/// looked up, the set is emptied again.
#[derive(Clone, Copy)]
pub(crate) enum Phase {
    Makes,
    Names,
    Clears,
}

/// The whole of a full-expression [intro.execution].
#[derive(Clone, Copy)]
pub(crate) enum Full<'a> {
    Expr(&'a CoreExpr),
    Init(&'a Init),
    Await(&'a AwaitPlan),
}

/// The slots that are visible at a place of a function: the locals and the variables of handlers in whose scope it stands,
/// and what its full-expression makes; and whether each slot that was named so far was visible there.
#[derive(Drop)]
pub(crate) struct Visible<'a> {
    func: &'a CoreFunc,
    phase: Phase,
    scope: SlotSet,
    made: SlotSet,
    pub(crate) holds: bool,
}

/// The slot of an awaiter that is no temporary.
fn held_slot(func: &CoreFunc, slot: SlotId) -> Option<SlotId>
    ensures { result ≡ spec.held_slot func.now slot }
{
    if is_held(func, slot) {
        Some(slot)
    } else {
        None
    }
}

/// The slot that the own act of an expression makes.
fn made_by(func: &CoreFunc, e: &CoreExpr) -> Option<SlotId>
    ensures { slot_list result ≡ slots.made func.now e.now }
{
    match e {
        CoreExpr::Temp(slot, _, _) => Some(*slot),
        CoreExpr::Await(plan) => held_slot(func, plan.get().holder),
        _ => None,
    }
}

/// Where a function begins.
pub(crate) fn nothing_visible(func: &CoreFunc) -> Visible<'_>
    ensures { Begun func.now result }
{
    Visible {
        func,
        phase: Phase::Makes,
        scope: SlotSet::none(),
        made: SlotSet::none(),
        holds: true,
    }
}

impl Visible<'_> {
    fn sees_slot(&self, slot: SlotId) -> bool
        ensures { result ≡ slot_seen self.now slot }
    {
        is_lasting(self.func, slot) || self.scope.contains(slot) || self.made.contains(slot)
    }

    /// Whether the slot that an expression names is visible, if it names one.
    fn sees(&self, e: &CoreExpr) -> bool
        ensures { result ≡ expr_seen self.now e.now }
    {
        match e {
            CoreExpr::Slot(slot, _) => self.sees_slot(*slot),
            _ => true,
        }
    }

    fn name(&mut self, e: &CoreExpr)
        ensures { self.new ≡ named self.old e.now }
    {
        self.holds = self.sees(e) && self.holds;
    }

    /// Enters the scope of a slot, if there is one.
    pub(crate) fn enter(&mut self, slot: Option<SlotId>)
        ensures { self.new ≡ entered self.old slot }
    {
        self.scope.insert_if(slot);
    }

    /// Leaves the scope of a slot, if there is one.
    pub(crate) fn leave(&mut self, slot: Option<SlotId>)
        ensures { self.new ≡ unscoped self.old (slot_list slot) }
    {
        self.scope.remove_if(slot);
    }

    /// Leaves the scopes of the locals that are declared directly in a list.
    pub(crate) fn leave_list(&mut self, stmts: &[CoreStmt])
        ensures { self.new ≡ unscoped self.old (flat_map (λ s. slot_list (local_of s)) stmts.now) }
    {
        self.scope.remove_locals(stmts);
    }

    fn walk(&mut self, phase: Phase, full: Full<'_>)
        ensures { (funcs : List Func) → self.new ≡ walked phase self.old (full_acts funcs full.entry) }
    {
        self.phase = phase;
        walk_full(self, full);
    }

    /// Looks up each slot that a full-expression names, where the slot that it initializes is visible too.
    pub(crate) fn visit_full(&mut self, own: Option<SlotId>, full: Full<'_>)
        ensures { (funcs : List Func) → self.new ≡ full_seen self.old own (full_acts funcs full.entry) }
    {
        self.made.insert_if(own);
        self.walk(Phase::Makes, full);
        self.walk(Phase::Names, full);
        self.walk(Phase::Clears, full);
        self.made.remove_if(own);
    }

    /// Looks up each slot that an initial or a final await names: its own awaiter is visible.
    pub(crate) fn visit_await(&mut self, plan: &AwaitPlan)
        ensures { (funcs : List Func) → self.new ≡ spec.await_seen funcs self.old plan.now }
    {
        let own = held_slot(self.func, plan.holder);
        self.visit_full(own, Full::Await(plan));
    }
}

impl Visitor for Visible<'_> {
    ghost after = { λ s act. acted s act };

    fn visit_expr(&mut self, e: &CoreExpr) {
        match self.phase {
            Phase::Makes => self.made.insert_if(made_by(self.func, e)),
            Phase::Names => self.name(e),
            Phase::Clears => self.made.remove_if(made_by(self.func, e)),
        }
    }

    fn visit_init(&mut self, _i: &Init) {}

    ghost keeps = { λ s part. refl };

    ghost passes = { λ s slot i at c. refl };
}

fn walk_full(v: &mut Visible<'_>, full: Full<'_>)
    ensures { (funcs : List Func) → v.new ≡ fold acted v.old (full_acts funcs full.entry) }
{
    match full {
        Full::Expr(e) => walk_expr(v, e),
        Full::Init(i) => walk_init(v, i),
        Full::Await(plan) => walk_await(v, plan),
    }
}
