ghost use Rattle.std.specs.Prelude.{◌≡◌, drop};
ghost use Rattle.std.specs.Option.{option_copied};
ghost use Rattle.co_core_tree.specs.Acts.{first};
ghost use Rattle.co_core_tree.specs.Slots as spec;
ghost use Rattle.co_meaning_calls.specs.Calls.{without};

use co_base::{FuncId, SlotId};
use co_core_tree::{CoreFunc, SlotInfo};
use co_types::{CoType, Head};
use sqlite_items::at;

fn is_class(of: &CoType) -> bool
    ensures { result ≡ spec.is_class of.now }
{
    match of.head() {
        Head::Class(_) => true,
        _ => false,
    }
}

/// Whether a slot holds an object of a class.
pub(crate) fn holds_class(slot: Option<&SlotInfo>) -> bool
    ensures { result ≡ spec.holds_class (option_copied slot.entry) }
{
    match slot {
        Some(slot) => is_class(&slot.of),
        None => false,
    }
}

#[tactic(auto, using(crate::proofs::Flags::all_dropped))]
fn slots_after(slots: &[SlotId], given: usize) -> &[SlotId]
    ensures { result.now ≡ drop given slots.now }
{
    if given < slots.len() {
        &slots[given..]
    } else {
        &[]
    }
}

/// Whether the parameter of the number `param` after the first `given` ones is an object of a class.
#[tactic(auto, using(crate::proofs::Flags::flag_some, crate::proofs::Flags::flag_none))]
fn is_class_param(func: &CoreFunc, given: usize, param: usize) -> bool
    ensures { result ≡ first (drop param (without given (spec.class_slots func.now func.now.params))) }
{
    match at(slots_after(func.params.as_slice(), given), param) {
        Some(slot) => holds_class(at(func.slots.as_slice(), slot.0 as usize)),
        None => false,
    }
}

/// The same of the function of a number.
#[tactic(auto, using(crate::proofs::Flags::no_flag))]
pub(crate) fn takes_class(funcs: &[CoreFunc], func: FuncId, given: usize, param: usize) -> bool
    ensures { result ≡ first (drop param (without given (spec.class_params funcs.now func))) }
{
    match at(funcs, func.0 as usize) {
        Some(func) => is_class_param(func, given, param),
        None => false,
    }
}
