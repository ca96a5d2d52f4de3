ghost use Rattle.std.specs.Prelude.{◌≡◌, IsTrue};
ghost use Rattle.co_core.specs.Counts as count;
ghost use Rattle.co_core.specs.Ids as id;
ghost use Rattle.co_core.specs.Valid.{holds_of};
ghost use Rattle.co_core_holds.specs.Order.{from_made, from_main, from_marks, in_order};

use co_core_all_typed::all_typed;
use co_core_counts::counts_fit;
use co_core_kept::{held_match, marks_match};
use co_core_params::params_listed;
use co_core_plans::{ends_noexcept, finals_noexcept, main_fits, plans_call, storage_fits};
use co_core_scopes::{all_visible, made_once, points_differ};
use co_core_sizes::{classes_nest, sizes_fit};
use co_core_tree::UnitParts;
use co_core_walks::{ends_placed, ids_held, jumps_placed, numbers_fit};

fn hold_from_marks(unit: &UnitParts) -> bool
    requires counts { IsTrue (count.counts_fit unit.now) }
    ensures { result ≡ from_marks unit.now }
{
    marks_match(unit)
        && (storage_fits(unit)
            && (held_match(unit) && (classes_nest(&unit.classes) && sizes_fit(unit))))
}

fn hold_from_main(unit: &UnitParts) -> bool
    requires counts { IsTrue (count.counts_fit unit.now) }
    ensures { result ≡ from_main unit.now }
{
    main_fits(unit)
        && (ends_placed(unit)
            && (params_listed(unit) && (plans_call(unit) && hold_from_marks(unit))))
}

fn hold_from_made(unit: &UnitParts) -> bool
    requires counts { IsTrue (count.counts_fit unit.now) }
    requires ids { IsTrue (id.ids_held unit.now) }
    ensures { result ≡ from_made unit.now }
{
    made_once(unit)
        && (all_visible(unit)
            && (jumps_placed(unit)
                && (points_differ(unit)
                    && (ends_noexcept(unit) && (finals_noexcept(unit) && hold_from_main(unit))))))
}

fn hold_in_order(unit: &UnitParts) -> bool
    ensures { result ≡ in_order unit.now }
{
    counts_fit(unit)
        && (ids_held(unit) && (all_typed(unit) && (numbers_fit(unit) && hold_from_made(unit))))
}

/// Whether the parts are a valid unit, by each of the rules of `IsValid`. It takes no memory.
pub fn holds(unit: &UnitParts) -> bool
    ensures { result ≡ holds_of unit.now }
{
    hold_in_order(unit)
}
