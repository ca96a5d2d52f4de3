ghost use Rattle.std.specs.Prelude.{◌≡◌, IsTrue};
ghost use Rattle.std.specs.List.{list_all};
ghost use Rattle.co_core_types.specs.Seen.{known_type};
ghost use Rattle.co_core.specs.Counts as spec;
ghost use Rattle.co_core_kept.specs.Kept.{keeps_value, last_keeping, type_at};

use crate::given::{keeps_expr, keeps_init};
use crate::holders::{Holders, holders_of, is_held};
use co_core_acts::{Order, Visitor, visit_func};
use co_core_tree::{CoreExpr, CoreFunc, Init, UnitParts};
use co_core_typed::Scene;
use co_core_types::Known;
use sqlite_items::at;

/// Whether this slot is there and keeps a value.
fn keeps(func: &CoreFunc, holders: &Holders, slot: usize) -> bool
    ensures { result ≡ keeps_value func.now holders.now slot }
{
    is_held(at(func.slots.as_slice(), slot)) && !holders.has(slot)
}

/// How many slots there are up to the last of the first `left` that keeps a value.
fn last_kept(func: &CoreFunc, holders: &Holders, left: usize) -> usize
    ensures { result ≡ last_keeping func.now holders.now left }
{
    let mut end = left;
    while end > 0 {
        if keeps(func, holders, end - 1) {
            return end;
        }
        end -= 1;
    }
    end
}

fn slot_type(func: &CoreFunc, slot: usize) -> Known<'_>
    ensures { known_type result ≡ type_at func.now slot }
{
    match at(func.slots.as_slice(), slot) {
        Some(info) => Known::Of(&info.of),
        None => Known::Void,
    }
}

/// The slots that keep values, from the last to the first, beside the values that are kept.
#[derive(Drop)]
struct Keeping<'a> {
    scene: Scene<'a>,
    holders: Holders,
    /// How many slots there are before those that the values so far have.
    left: usize,
    fits: bool,
}

impl Visitor for Keeping<'_> {
    ghost use Rattle.co_core_kept.specs.Kept.{kept_after};

    ghost after = { kept_after };

    fn does(&mut self, _conditional: bool, _e: &CoreExpr) {}

    fn passes(&mut self, _e: &CoreExpr) {}

    fn starts(&mut self, _init: &Init) {}

    fn keeps_expr(&mut self, e: &CoreExpr) {
        let count = last_kept(self.scene.func, &self.holders, self.left);
        self.left = count.saturating_sub(1);
        let of = slot_type(self.scene.func, self.left);
        self.fits = self.fits && (count > 0 && keeps_expr(self.scene, of, e));
    }

    fn keeps_init(&mut self, init: &Init) {
        let count = last_kept(self.scene.func, &self.holders, self.left);
        self.left = count.saturating_sub(1);
        let of = slot_type(self.scene.func, self.left);
        self.fits = self.fits && (count > 0 && keeps_init(self.scene, of, init));
    }
}

/// Whether the slots of a function that keep values are those of its kept values.
pub(crate) fn func_held(scene: Scene<'_>) -> bool
    ensures { IsTrue (spec.slots_fit scene.entry.func.now) → result ≡ spec.func_held scene.entry.unit.now scene.entry.func.now }
{
    let func = scene.func;
    let mut keeping = Keeping {
        scene,
        holders: holders_of(scene),
        left: func.slots.len(),
        fits: true,
    };
    visit_func(
        &mut keeping,
        scene.unit.funcs.as_slice(),
        Order::Evaluation,
        func,
    );
    keeping.fits && last_kept(func, &keeping.holders, keeping.left) == 0
}

fn each_held(unit: &UnitParts, funcs: &[CoreFunc]) -> bool
    requires slots { IsTrue (list_all spec.slots_fit funcs.now) }
    ensures { result ≡ list_all (spec.func_held unit.now) funcs.now }
{
    for func in funcs {
        let held = func_held(Scene { unit, func });
        if !held {
            return false;
        }
    }
    true
}

/// Whether each value that an expression keeps over an await has a slot of its own [expr.await], in a unit whose functions
/// have at most 4,096 slots each. It takes no memory.
pub fn held_match(unit: &UnitParts) -> bool
    requires counts { IsTrue (spec.counts_fit unit.now) }
    ensures { result ≡ spec.held_match unit.now }
{
    each_held(unit, unit.funcs.as_slice())
}
