//! The types that the forms of the core tree take and give.
#![tactic(auto)]

mod calls;
mod forms;
mod objects;
mod views;

pub use calls::{
    atomic_alone, atomic_with, atomic_with_two, handle_alone, handle_with, is_handle_value,
    lib_alone, lib_with, lib_with_two,
};
pub use forms::{
    are_truths, arith_fits, arith_gives, class_place, is_some_number_type, is_testable, joined,
    loaded, pick_fits, pointer_to, referent, result_gives, same_fits, store_fits, update_fits,
    updated,
};
pub use objects::{
    await_fits, choose_fits, delete_fits, is_object, is_raw, result_fits, value_fits,
};
pub use views::{
    Kind, Known, View, is_number, is_place_of, is_reference, is_right, is_same_known,
    is_some_number, is_void, number, plain_kind, pointer_kind, truth, value_converts,
};
