ghost use Rattle.std.specs.Prelude.{◌≡◌, ◌<◌, ℕ, false, fold, length};
ghost use Rattle.std.specs.Option.{option_copied};
ghost use Rattle.co_core_tree.specs.Slots as slots;
ghost use Rattle.co_core.specs.Counts as spec;
ghost use Rattle.co_core.specs.Scopes as scope;
ghost use Rattle.co_core_kept.specs.Marked.{has_mark, with_mark};

use co_base::SlotId;
use co_core_acts::{Order, Visitor, visit_func};
use co_core_tree::{AwaitPlan, CoreExpr, CoreFunc, Init, SlotInfo, SlotKind};
use co_core_typed::{Scene, slot_of};

pub(crate) fn is_held(slot: Option<&SlotInfo>) -> bool
    ensures { result ≡ slots.is_held (option_copied slot.entry) }
{
    match slot {
        Some(slot) => match slot.kind {
            SlotKind::Held => true,
            _ => false,
        },
        None => false,
    }
}

/// The slots below 4,096 that hold the awaiters of a function's awaits.
#[derive(Drop)]
pub(crate) struct Holders {
    marked: [bool; 4096],
}

impl Holders {
    fn none() -> Holders
        ensures size { length result.marked ≡ 4096 }
        ensures none { (k : ℕ) → has_mark result k ≡ false }
    {
        Holders {
            marked: [false; 4096],
        }
    }

    /// Whether this slot is one of them.
    pub fn has(&self, slot: usize) -> bool
        ensures { result ≡ has_mark self.now slot }
    {
        slot < 4096 && self.marked[slot]
    }

    fn mark(&mut self, slot: SlotId)
        ensures { self.new ≡ with_mark self.old slot }
    {
        let at = slot.0 as usize;
        if at < 4096 {
            self.marked[at] = true;
        }
    }

    /// The slot of an initial or final awaiter that is no temporary.
    #[tactic(auto, using(crate::proofs::Marking::holder_yes, crate::proofs::Marking::holder_no))]
    fn mark_holder(&mut self, func: &CoreFunc, plan: &AwaitPlan)
        ensures { self.new ≡ fold with_mark self.old (scope.holder_of func.now plan.now) }
    {
        if is_held(slot_of(func, plan.holder)) {
            self.mark(plan.holder);
        }
    }

    fn mark_plan(&mut self, scene: Scene<'_>)
        ensures { self.new ≡ fold with_mark self.old (spec.plan_holders scene.entry.unit.now scene.entry.func.now scene.entry.func.now.plan) }
    {
        match &scene.func.plan {
            Some(plan) => {
                self.mark_holder(scene.func, &plan.initial);
                self.mark_holder(scene.func, &plan.last);
            }
            None => {}
        }
    }
}

impl Visitor for Holders {
    ghost use Rattle.co_core_kept.specs.Marked.{marked_after};

    ghost after = { marked_after };

    fn does(&mut self, _conditional: bool, e: &CoreExpr) {
        match e {
            CoreExpr::Await(plan) => self.mark(plan.get().holder),
            _ => {}
        }
    }

    fn passes(&mut self, _e: &CoreExpr) {}

    fn starts(&mut self, _init: &Init) {}

    fn keeps_expr(&mut self, _e: &CoreExpr) {}

    fn keeps_init(&mut self, _init: &Init) {}
}

/// The holders of the awaits of a function.
pub(crate) fn holders_of(scene: Scene<'_>) -> Holders
    ensures { (k : ℕ) → k < 4096 → has_mark result k ≡ scope.member (record { 0 = k }) (spec.func_holders scene.entry.unit.now scene.entry.func.now) }
{
    let mut holders = Holders::none();
    visit_func(
        &mut holders,
        scene.unit.funcs.as_slice(),
        Order::Text,
        scene.func,
    );
    holders.mark_plan(scene);
    holders
}
