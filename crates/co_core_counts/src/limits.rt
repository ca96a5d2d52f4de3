ghost use Rattle.std.specs.Prelude.{◌≡◌, nat_le};
ghost use Rattle.std.specs.List.{list_all};
ghost use Rattle.co_core.specs.Counts as spec;

use crate::points::after_funcs;
use co_core_tree::{CoreFunc, UnitParts};

const MAX_GLOBALS: usize = 1024;

const MAX_POINTS: u32 = 65535;

const MAX_SLOTS: usize = 4096;

fn slots_fit(func: &CoreFunc) -> bool
    ensures { result ≡ spec.slots_fit func.now }
{
    func.slots.len() <= MAX_SLOTS
}

fn all_slots_fit(funcs: &[CoreFunc]) -> bool
    ensures { result ≡ list_all spec.slots_fit funcs.now }
{
    let mut rest = funcs;
    while let [func, next @ ..] = rest {
        if !slots_fit(func) {
            return false;
        }
        rest = next;
    }
    true
}

fn points_fit(funcs: &[CoreFunc]) -> bool
    ensures { result ≡ nat_le (spec.sum_points funcs.now funcs.now) 65535 }
{
    after_funcs(funcs, Some(MAX_POINTS)).is_some()
}

/// Whether there are at most 1,024 globals and 65,535 suspension points, and no function has more than 4,096 slots.
pub fn counts_fit(unit: &UnitParts) -> bool
    ensures { result ≡ spec.counts_fit unit.now }
{
    unit.globals.len() <= MAX_GLOBALS
        && (points_fit(unit.funcs.as_slice()) && all_slots_fit(unit.funcs.as_slice()))
}
