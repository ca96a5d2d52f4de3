ghost use Rattle.std.specs.Prelude.{◌≡◌, ◌&&◌, refl};
ghost use Rattle.std.specs.Option.{option_copied};
ghost use Rattle.std.specs.List.{list_all};
ghost use Rattle.co_core_tree.specs.Slots as slots;
ghost use Rattle.co_core.specs.Bodies.{body_of, func_acts};
ghost use Rattle.co_core.specs.Scopes as spec;
ghost use Rattle.co_core_walks.specs.Seen.{stands_of};
ghost use Rattle.co_core_scopes.specs.Makes.{handler_local};

use co_base::SlotId;
use co_core_tree::{CoreExpr, CoreFunc, CoreStmt, Handler, Init, SlotInfo, SlotKind};
use co_core_walks::{Rule, Scene, Standing, StmtRule, body_holds, func_holds};
use sqlite_items::at;

fn slot_of(func: &CoreFunc, slot: SlotId) -> Option<&SlotInfo>
    ensures { option_copied result ≡ slots.slot_at func.now slot }
{
    at(func.slots.as_slice(), slot.0 as usize)
}

/// Whether a slot is there and holds a value that is kept while a coroutine is suspended.
pub(crate) fn is_held(func: &CoreFunc, slot: SlotId) -> bool
    ensures { result ≡ slots.is_held (slots.slot_at func.now slot) }
{
    match slot_of(func, slot) {
        Some(info) => match info.kind {
            SlotKind::Held => true,
            _ => false,
        },
        None => false,
    }
}

fn is_local(func: &CoreFunc, slot: SlotId) -> bool
    ensures { result ≡ spec.slot_is spec.is_local (slots.slot_at func.now slot) }
{
    match slot_of(func, slot) {
        Some(info) => match info.kind {
            SlotKind::Local => true,
            _ => false,
        },
        None => false,
    }
}

/// Whether a slot is there and lives as long as its function [basic.stc.auto].
pub(crate) fn is_lasting(func: &CoreFunc, slot: SlotId) -> bool
    ensures { result ≡ spec.slot_is spec.is_lasting (slots.slot_at func.now slot) }
{
    match slot_of(func, slot) {
        Some(info) => match info.kind {
            SlotKind::Param => true,
            SlotKind::Promise => true,
            SlotKind::Copy => true,
            _ => false,
        },
        None => false,
    }
}

fn is_temp(func: &CoreFunc, slot: SlotId) -> bool
    ensures { result ≡ spec.slot_is spec.is_temp_kind (slots.slot_at func.now slot) }
{
    match slot_of(func, slot) {
        Some(info) => match info.kind {
            SlotKind::Temp => true,
            _ => false,
        },
        None => false,
    }
}

/// A `Temp` makes a slot of kind Temp.
#[derive(Clone, Copy)]
struct Temps<'a> {
    func: &'a CoreFunc,
}

impl Rule for Temps<'_> {
    ghost test = { λ r act. spec.act_makes_temp r.func.now act };

    fn expr_holds(&self, e: &CoreExpr) -> bool {
        match e {
            CoreExpr::Temp(slot, _, _) => is_temp(self.func, *slot),
            _ => true,
        }
    }

    fn init_holds(&self, _i: &Init) -> bool {
        true
    }

    ghost keeps = { λ r part. refl };

    ghost passes = { λ r slot i at c. refl };
}

fn variable_is_local(func: &CoreFunc, handler: &Handler) -> bool
    ensures { result ≡ handler_local func.now handler.now }
{
    match handler.slot {
        Some(slot) => is_local(func, slot),
        None => true,
    }
}

fn variables_are_local(func: &CoreFunc, handlers: &[Handler]) -> bool
    ensures { result ≡ list_all (handler_local func.now) handlers.now }
{
    for handler in handlers {
        let fits = variable_is_local(func, handler);
        if !fits {
            return false;
        }
    }
    true
}

/// A local is declared directly in a list, and has a slot of kind Local as the variable of a handler has.
#[derive(Clone, Copy)]
struct Locals<'a> {
    func: &'a CoreFunc,
}

impl StmtRule for Locals<'_> {
    ghost stmt_test = { λ r p. spec.makes_local r.func.now p };

    fn stmt_holds(&self, stands: Standing, s: &CoreStmt) -> bool {
        match s {
            CoreStmt::Local(slot, _, _) => stands.in_scope && is_local(self.func, *slot),
            CoreStmt::Try(_, handlers, _) => variables_are_local(self.func, handlers.as_slice()),
            _ => true,
        }
    }
}

/// Whether each slot that a `Local`, a handler or a `Temp` makes is of its kind.
pub(crate) fn kinds_fit(scene: Scene<'_>) -> bool
    ensures { result ≡ (list_all (spec.makes_local scene.entry.func.now) (body_of scene.entry.func.now) && list_all (spec.act_makes_temp scene.entry.func.now) (func_acts scene.entry.unit.now.funcs scene.entry.func.now)) }
{
    let locals = Locals { func: scene.func };
    let temps = Temps { func: scene.func };
    body_holds(&locals, scene.func) && func_holds(&temps, scene)
}
