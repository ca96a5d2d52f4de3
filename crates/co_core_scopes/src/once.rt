ghost use Rattle.std.specs.Prelude.{◌≡◌, ◌&&◌, IsTrue};
ghost use Rattle.std.specs.List.{list_all};
ghost use Rattle.co_core.specs.Counts.{counts_fit, slots_fit};
ghost use Rattle.co_core.specs.Ids.{func_ids_held, ids_held};
ghost use Rattle.co_core.specs.Scopes as spec;

use crate::kinds::kinds_fit;
use crate::makes::is_made_once;
use co_core_tree::{CoreFunc, UnitParts};
use co_core_walks::Scene;

fn both(a: bool, b: bool) -> bool
    ensures { result ≡ (a && b) }
{
    a && b
}

/// Whether no slot is made at two places of a function, and each is of the kind of what makes it.
pub(crate) fn func_makes_once(scene: Scene<'_>) -> bool
    ensures { IsTrue (slots_fit scene.entry.func.now) → IsTrue (func_ids_held scene.entry.unit.now scene.entry.func.now) → result ≡ spec.func_makes_once scene.entry.unit.now.funcs scene.entry.func.now }
{
    both(is_made_once(scene), kinds_fit(scene))
}

fn each_makes_once(unit: &UnitParts, funcs: &[CoreFunc]) -> bool
    requires slots { IsTrue (list_all slots_fit funcs.now) }
    requires ids { IsTrue (list_all (func_ids_held unit.now) funcs.now) }
    ensures { result ≡ list_all (spec.func_makes_once unit.now.funcs) funcs.now }
{
    for func in funcs {
        let fits = func_makes_once(Scene { unit, func });
        if !fits {
            return false;
        }
    }
    true
}

/// Whether no slot is made at two places of its function, and each is of the kind of what makes it, in a unit whose
/// functions have at most 4,096 slots each and that names only what it has. It takes no memory.
pub fn made_once(unit: &UnitParts) -> bool
    requires counts { IsTrue (counts_fit unit.now) }
    requires ids { IsTrue (ids_held unit.now) }
    ensures { result ≡ spec.made_once unit.now }
{
    each_makes_once(unit, unit.funcs.as_slice())
}
