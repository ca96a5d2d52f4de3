ghost use Rattle.std.specs.Prelude.{◌≡◌, not, refl};
ghost use Rattle.std.specs.List.{list_all};
ghost use Rattle.co_core_tree.specs.Acts.{is_suspension, suspends};
ghost use Rattle.co_core.specs.Bodies.{func_acts, joined_acts, own_fulls};
ghost use Rattle.co_core.specs.Jumps as spec;

use crate::bodies::Standing;
use crate::rules::{Rule, StmtRule, body_holds, func_holds, own_holds};
use crate::scene::Scene;
use co_core_tree::{CoreExpr, CoreFunc, CoreStmt, Init, UnitParts};

/// Nothing awaits.
struct Calm;

impl Rule for Calm {
    ghost test = { λ r act. not (is_suspension act) };

    fn expr_holds(&self, e: &CoreExpr) -> bool {
        match e {
            CoreExpr::Await(_) => false,
            _ => true,
        }
    }

    fn init_holds(&self, _i: &Init) -> bool {
        true
    }

    ghost keeps = { λ r part. refl };

    ghost passes = { λ r slot i at c. refl };
}

/// Whether an await is among the acts of a function.
fn func_suspends(scene: Scene<'_>) -> bool
    ensures { result ≡ suspends (func_acts scene.entry.unit.now.funcs scene.entry.func.now) }
{
    !func_holds(&Calm, scene)
}

/// Whether an await is in the full-expressions of a statement that are no part of a statement in it.
fn own_suspends(scene: Scene<'_>, s: &CoreStmt) -> bool
    ensures { result ≡ suspends (joined_acts scene.entry.unit.now.funcs (own_fulls scene.entry.unit.now.funcs s.now)) }
{
    !own_holds(&Calm, scene, s)
}

/// `Break` and `Continue` stand in a `Loop` [stmt.break] [stmt.cont].
struct Jumps;

impl StmtRule for Jumps {
    ghost stmt_test = { λ r p. spec.placed_jumps p };

    fn stmt_holds(&self, stands: Standing, s: &CoreStmt) -> bool {
        match s {
            CoreStmt::Break(_) => stands.in_loop,
            CoreStmt::Continue(_) => stands.in_loop,
            _ => true,
        }
    }
}

fn func_jumps(scene: Scene<'_>) -> bool
    ensures { result ≡ spec.func_jumps scene.entry.unit.now.funcs scene.entry.func.now }
{
    body_holds(&Jumps, scene.func) && (scene.func.plan.is_some() || !func_suspends(scene))
}

fn each_jumps(unit: &UnitParts, funcs: &[CoreFunc]) -> bool
    ensures { result ≡ list_all (spec.func_jumps unit.now.funcs) funcs.now }
{
    for func in funcs {
        let fits = func_jumps(Scene { unit, func });
        if !fits {
            return false;
        }
    }
    true
}

/// Whether each `Break` and each `Continue` stands in a `Loop` [stmt.break] [stmt.cont], and each `Await` in a coroutine
/// [expr.await]. It takes no memory.
pub fn jumps_placed(unit: &UnitParts) -> bool
    ensures { result ≡ spec.jumps_placed unit.now }
{
    each_jumps(unit, unit.funcs.as_slice())
}

/// A `Return` stands in a function without a plan, a `Leave` in one with a plan, and no `Await` in a handler.
#[derive(Clone, Copy)]
struct Ends<'a> {
    scene: Scene<'a>,
    is_coroutine: bool,
}

impl StmtRule for Ends<'_> {
    ghost stmt_test = { λ r p. spec.placed_ends r.scene.unit.now.funcs r.is_coroutine p };

    fn stmt_holds(&self, stands: Standing, s: &CoreStmt) -> bool {
        let leaves = match s {
            CoreStmt::Return(_, _) => !self.is_coroutine,
            CoreStmt::Leave(_) => self.is_coroutine,
            _ => true,
        };
        leaves && !(stands.in_handler && own_suspends(self.scene, s))
    }
}

fn func_ends(scene: Scene<'_>) -> bool
    ensures { result ≡ spec.func_ends scene.entry.unit.now.funcs scene.entry.func.now }
{
    let ends = Ends {
        scene,
        is_coroutine: scene.func.plan.is_some(),
    };
    body_holds(&ends, scene.func)
}

fn each_ends(unit: &UnitParts, funcs: &[CoreFunc]) -> bool
    ensures { result ≡ list_all (spec.func_ends unit.now.funcs) funcs.now }
{
    for func in funcs {
        let fits = func_ends(Scene { unit, func });
        if !fits {
            return false;
        }
    }
    true
}

/// Whether each `Return` stands in a function without a plan, each `Leave` in one with a plan, and no `Await` in a handler.
/// It takes no memory.
pub fn ends_placed(unit: &UnitParts) -> bool
    ensures { result ≡ spec.ends_placed unit.now }
{
    each_ends(unit, unit.funcs.as_slice())
}
