ghost use Rattle.std.specs.Prelude.{◌≡◌, refl};
ghost use Rattle.std.specs.List.{list_all};
ghost use Rattle.co_core.specs.Numbers as spec;

use crate::rules::{Rule, func_holds};
use crate::scene::Scene;
use co_base::{AtomicKind, Num};
use co_core_tree::{CoreExpr, CoreFunc, GlobalInfo, Init, UnitParts};
use co_types::{Head, is_same_num};

/// Whether an `i64` holds a value of the type; a `std::size_t` it holds by its bits [basic.fundamental].
fn holds_value(num: Num, v: i64) -> bool
    ensures { result ≡ spec.holds_value num v }
{
    match num {
        Num::Bool => 0 <= v && v <= 1,
        Num::Int => i64::from(i32::MIN) <= v && v <= i64::from(i32::MAX),
        Num::Long | Num::Size => true,
    }
}

fn atomic_value(kind: AtomicKind, v: i64) -> bool
    ensures { result ≡ spec.atomic_value kind v }
{
    match kind {
        AtomicKind::Bool => holds_value(Num::Bool, v),
        AtomicKind::Int => holds_value(Num::Int, v),
        AtomicKind::Long => true,
        AtomicKind::VoidPointer => v == 0,
    }
}

fn value_of_head(head: Head, v: i64) -> bool
    ensures { result ≡ spec.value_of_head head v }
{
    match head {
        Head::Num(num) => holds_value(num, v),
        Head::Atomic(kind) => atomic_value(kind, v),
        _ => v == 0,
    }
}

fn global_value(global: &GlobalInfo) -> bool
    ensures { result ≡ spec.global_value global.now }
{
    value_of_head(global.of.head(), global.value)
}

fn globals_fit(globals: &[GlobalInfo]) -> bool
    ensures { result ≡ list_all spec.global_value globals.now }
{
    for global in globals {
        let fits = global_value(global);
        if !fits {
            return false;
        }
    }
    true
}

/// Each constant is a value of its type, and no operation computes in `bool` [conv.prom].
struct Numbers;

impl Rule for Numbers {
    ghost test = { λ r act. spec.act_numbers act };

    fn expr_holds(&self, e: &CoreExpr) -> bool {
        match e {
            CoreExpr::Const(num, v, _) => holds_value(*num, *v),
            CoreExpr::Arith(_, num, _, _, _) => !is_same_num(*num, Num::Bool),
            CoreExpr::Update(_, num, _, _, _, _) => !is_same_num(*num, Num::Bool),
            _ => true,
        }
    }

    fn init_holds(&self, _i: &Init) -> bool {
        true
    }

    ghost keeps = { λ r part. refl };

    ghost passes = { λ r slot i at c. refl };
}

fn func_numbers(scene: Scene<'_>) -> bool
    ensures { result ≡ spec.func_numbers scene.entry.unit.now.funcs scene.entry.func.now }
{
    func_holds(&Numbers, scene)
}

fn each_fits(unit: &UnitParts, funcs: &[CoreFunc]) -> bool
    ensures { result ≡ list_all (spec.func_numbers unit.now.funcs) funcs.now }
{
    for func in funcs {
        let fits = func_numbers(Scene { unit, func });
        if !fits {
            return false;
        }
    }
    true
}

/// Whether each constant and the value of each global is a value of its type, and no operation computes in `bool`
/// [conv.prom]. It takes no memory.
pub fn numbers_fit(unit: &UnitParts) -> bool
    ensures { result ≡ spec.numbers_fit unit.now }
{
    globals_fit(unit.globals.as_slice()) && each_fits(unit, unit.funcs.as_slice())
}
