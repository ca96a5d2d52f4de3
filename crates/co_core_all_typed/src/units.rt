ghost use Rattle.std.specs.Prelude.{◌≡◌};
ghost use Rattle.std.specs.List.{list_all};
ghost use Rattle.co_core.specs.Typed as spec;

use crate::funcs::func_fits;
use crate::slots::globals_fit;
use co_core_tree::{CoreFunc, UnitParts};
use co_core_typed::Scene;

fn funcs_fit(unit: &UnitParts, funcs: &[CoreFunc]) -> bool
    ensures { result ≡ list_all (spec.func_typed unit.now) funcs.now }
{
    let mut rest = funcs;
    while let [func, next @ ..] = rest {
        if !func_fits(Scene { unit, func }) {
            return false;
        }
        rest = next;
    }
    true
}

/// Whether each part of the unit has the type that it needs. It takes no memory.
pub fn all_typed(unit: &UnitParts) -> bool
    ensures { result ≡ spec.all_typed unit.now }
{
    globals_fit(unit.globals.as_slice()) && funcs_fit(unit, unit.funcs.as_slice())
}
