use crate::holds;
use crate::sample::{Flaw, unit_with};
use co_base::NoMemory;
use co_core_all_typed::all_typed;
use co_core_counts::counts_fit;
use co_core_kept::{held_match, marks_match};
use co_core_params::params_listed;
use co_core_plans::{ends_noexcept, finals_noexcept, main_fits, plans_call, storage_fits};
use co_core_scopes::{all_visible, made_once, points_differ};
use co_core_sizes::{classes_nest, sizes_fit};
use co_core_tree::UnitParts;
use co_core_walks::{ends_placed, ids_held, jumps_placed, numbers_fit};
use std::alloc::Global;
use std::test::Fail;

/// The first of the rules on tables, numbers and slots that a unit breaks.
fn first_on_slots(unit: &UnitParts) -> Flaw {
    if !counts_fit(unit) {
        Flaw::Counts
    } else if !ids_held(unit) {
        Flaw::Ids
    } else if !numbers_fit(unit) {
        Flaw::Numbers
    } else if !made_once(unit) {
        Flaw::Made
    } else if !all_visible(unit) {
        Flaw::Scopes
    } else if !params_listed(unit) {
        Flaw::Params
    } else if !marks_match(unit) {
        Flaw::Marks
    } else if !held_match(unit) {
        Flaw::Held
    } else {
        Flaw::Nothing
    }
}

/// The first of the rules on types, statements and classes that it breaks.
fn first_on_types(unit: &UnitParts) -> Flaw {
    if !all_typed(unit) {
        Flaw::Types
    } else if !jumps_placed(unit) {
        Flaw::Jumps
    } else if !ends_placed(unit) {
        Flaw::Returns
    } else if !points_differ(unit) {
        Flaw::Points
    } else if !classes_nest(&unit.classes) {
        Flaw::Classes
    } else if !sizes_fit(unit) {
        Flaw::Sizes
    } else {
        Flaw::Nothing
    }
}

/// The first of the rules on functions that it breaks.
fn first_on_functions(unit: &UnitParts) -> Flaw {
    if !ends_noexcept(unit) {
        Flaw::Ends
    } else if !finals_noexcept(unit) {
        Flaw::Finals
    } else if !main_fits(unit) {
        Flaw::Main
    } else if !plans_call(unit) {
        Flaw::Plans
    } else if !storage_fits(unit) {
        Flaw::Storage
    } else {
        Flaw::Nothing
    }
}

/// Whether the unit with this flaw breaks that rule and no other, and is valid where it has none.
fn breaks_alone(alloc: Global, flaw: Flaw) -> Result<bool, NoMemory> {
    let unit = unit_with(alloc, flaw)?;
    let found = [
        first_on_slots(&unit),
        first_on_types(&unit),
        first_on_functions(&unit),
    ];
    let mut broken = 0u32;
    for rule in found {
        if rule != Flaw::Nothing && rule != flaw {
            return Ok(false);
        }
        if rule == flaw && rule != Flaw::Nothing {
            broken = 1;
        }
    }
    Ok(if flaw == Flaw::Nothing {
        broken == 0 && holds(&unit)
    } else {
        broken == 1 && !holds(&unit)
    })
}

#[test]
fn a_unit_without_a_flaw_is_valid(rt: HostRuntime) -> Result<(), Fail> {
    assert!(rt; breaks_alone(rt.alloc(), Flaw::Nothing)?);
    Ok(())
}

#[test]
fn tables_types_and_numbers_count(rt: HostRuntime) -> Result<(), Fail> {
    assert!(rt; breaks_alone(rt.alloc(), Flaw::Ids)?);
    assert!(rt; breaks_alone(rt.alloc(), Flaw::Types)?);
    assert!(rt; breaks_alone(rt.alloc(), Flaw::Numbers)?);
    assert!(rt; breaks_alone(rt.alloc(), Flaw::Classes)?);
    assert!(rt; breaks_alone(rt.alloc(), Flaw::Sizes)?);
    assert!(rt; breaks_alone(rt.alloc(), Flaw::Counts)?);
    Ok(())
}

#[test]
fn slots_and_places_count(rt: HostRuntime) -> Result<(), Fail> {
    assert!(rt; breaks_alone(rt.alloc(), Flaw::Scopes)?);
    assert!(rt; breaks_alone(rt.alloc(), Flaw::Made)?);
    assert!(rt; breaks_alone(rt.alloc(), Flaw::Params)?);
    assert!(rt; breaks_alone(rt.alloc(), Flaw::Marks)?);
    assert!(rt; breaks_alone(rt.alloc(), Flaw::Held)?);
    assert!(rt; breaks_alone(rt.alloc(), Flaw::Jumps)?);
    assert!(rt; breaks_alone(rt.alloc(), Flaw::Returns)?);
    assert!(rt; breaks_alone(rt.alloc(), Flaw::Points)?);
    Ok(())
}

#[test]
fn functions_of_plans_count(rt: HostRuntime) -> Result<(), Fail> {
    assert!(rt; breaks_alone(rt.alloc(), Flaw::Ends)?);
    assert!(rt; breaks_alone(rt.alloc(), Flaw::Finals)?);
    assert!(rt; breaks_alone(rt.alloc(), Flaw::Main)?);
    assert!(rt; breaks_alone(rt.alloc(), Flaw::Plans)?);
    assert!(rt; breaks_alone(rt.alloc(), Flaw::Storage)?);
    Ok(())
}
