ghost use Rattle.std.specs.Prelude.{◌≡◌, ℕ, false, true, [], ◌∷◌, flat_map, fold, length, slice_index_or, refl, IsTrue};
ghost use Rattle.std.specs.List.{list_all};
ghost use Rattle.co_core_tree.specs.Slots as slots;
ghost use Rattle.co_core.specs.Scopes as spec;
ghost use Rattle.co_core_scopes.specs.Makes.{held_holder, is_small, marked, slot_list};

use crate::kinds::is_held;
use co_base::SlotId;
use co_core_tree::{AwaitPlan, CopyPlan, CoreExpr, CoreFunc, CoreStmt, Handler, Init, PromisePlan};
use co_core_walks::{Scene, Standing, StmtVisitor, Visitor, walk_body, walk_func};

/// The slots of a function that have been made so far, and whether each of them was made once and is below 4,096.
#[derive(Drop)]
pub(crate) struct Makes<'a> {
    func: &'a CoreFunc,
    made: [bool; 4096],
    once: bool,
}

impl Makes<'_> {
    fn make(&mut self, slot: SlotId)
        ensures { self.new ≡ marked self.old slot }
    {
        let at = slot.0 as usize;
        if at < 4096 {
            self.once = self.once && !self.made[at];
            self.made[at] = true;
        } else {
            self.once = false;
        }
    }

    fn make_holder(&mut self, holder: SlotId)
        ensures { self.new ≡ fold marked self.old (held_holder self.old.func.now holder) }
    {
        if is_held(self.func, holder) {
            self.make(holder);
        }
    }

    fn make_if(&mut self, slot: Option<SlotId>)
        ensures { self.new ≡ fold marked self.old (slot_list slot) }
    {
        match slot {
            Some(slot) => self.make(slot),
            None => {}
        }
    }

    fn make_variables(&mut self, handlers: &[Handler])
        ensures { self.new ≡ fold marked self.old (flat_map (λ handler. slot_list handler.slot) handlers.now) }
    {
        for handler in handlers {
            self.make_if(handler.slot);
        }
    }

    fn make_copies(&mut self, copies: &[CopyPlan])
        ensures { self.new ≡ fold marked self.old (flat_map (λ copy. copy.to ∷ []) copies.now) }
    {
        for copy in copies {
            self.make(copy.to);
        }
    }

    fn make_plan(&mut self, plan: &Option<PromisePlan>)
        ensures { self.new ≡ fold marked self.old (spec.plan_makes self.old.func.now plan.now) }
    {
        match plan {
            Some(plan) => {
                self.make_copies(plan.copies.as_slice());
                self.make_holder(plan.initial.holder);
                self.make_holder(plan.last.holder);
            }
            None => {}
        }
    }
}

/// No slot is made yet.
fn none_made(func: &CoreFunc) -> Makes<'_>
    ensures func { result.func.now ≡ func.now }
    ensures length { length result.made ≡ 4096 }
    ensures none { (k : ℕ) → slice_index_or result.made k false ≡ false }
    ensures once { result.once ≡ true }
{
    Makes {
        func,
        made: [false; 4096],
        once: true,
    }
}

impl Visitor for Makes<'_> {
    ghost after = { λ s act. fold marked s (slots.makes s.func.now (act ∷ [])) };

    fn visit_expr(&mut self, e: &CoreExpr) {
        match e {
            CoreExpr::Temp(slot, _, _) => self.make(*slot),
            CoreExpr::Await(plan) => self.make_holder(plan.get().holder),
            _ => {}
        }
    }

    fn visit_init(&mut self, _i: &Init) {}

    ghost keeps = { λ s part. refl };

    ghost passes = { λ s slot i at c. refl };
}

impl StmtVisitor for Makes<'_> {
    ghost after_stmt = { λ s p. fold marked s (spec.stmt_makes p.stmt) };

    fn visit_stmt(&mut self, _stands: Standing, s: &CoreStmt) {
        match s {
            CoreStmt::Local(slot, _, _) => self.make(*slot),
            CoreStmt::Try(_, handlers, _) => self.make_variables(handlers.as_slice()),
            _ => {}
        }
    }
}

/// Whether no slot is made at two places of a function.
pub(crate) fn is_made_once(scene: Scene<'_>) -> bool
    ensures { IsTrue (list_all is_small (spec.func_makes scene.entry.unit.now.funcs scene.entry.func.now)) → result ≡ spec.distinct (spec.func_makes scene.entry.unit.now.funcs scene.entry.func.now) }
{
    let mut makes = none_made(scene.func);
    makes.make_plan(&scene.func.plan);
    walk_func(&mut makes, scene.func);
    walk_body(&mut makes, scene.func);
    makes.once
}
