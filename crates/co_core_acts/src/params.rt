ghost use Rattle.std.specs.Prelude.{◌≡◌, drop};
ghost use Rattle.std.specs.Option.{option_copied};
ghost use Rattle.co_core_tree.specs.Acts.{first};
ghost use Rattle.co_core_tree.specs.Slots as spec;

use co_base::{FuncId, SlotId};
use co_core_tree::{CoreFunc, SlotInfo};
use co_types::{CoType, Head};
use sqlite_items::at;

fn is_class(of: &CoType) -> bool
    ensures { result ≡ spec.is_class of.now }
{
    match of.head() {
        Head::Class(_) => true,
        _ => false,
    }
}

fn holds_class(slot: Option<&SlotInfo>) -> bool
    ensures { result ≡ spec.holds_class (option_copied slot.entry) }
{
    match slot {
        Some(slot) => is_class(&slot.of),
        None => false,
    }
}

/// Whether the parameter of this number is an object of a class.
fn is_class_param(func: &CoreFunc, param: usize) -> bool
    ensures { result ≡ first (drop param (spec.class_slots func.now func.now.params)) }
{
    match at(func.params.as_slice(), param) {
        Some(slot) => holds_class(at(func.slots.as_slice(), slot.0 as usize)),
        None => false,
    }
}

/// Whether the parameter of this number of the function of this number is an object of a class.
pub(crate) fn takes_class(funcs: &[CoreFunc], func: FuncId, param: usize) -> bool
    ensures { result ≡ first (drop param (spec.class_params funcs.now func)) }
{
    match at(funcs, func.0 as usize) {
        Some(func) => is_class_param(func, param),
        None => false,
    }
}
