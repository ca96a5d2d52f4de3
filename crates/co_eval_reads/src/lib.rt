//! What a step reads of what its agent sees, as the meaning says it. It takes no memory and changes nothing.
#![tactic(auto)]

mod coroutines;
mod faults;
mod funcs;
mod objects;
mod places;
mod pointers;

pub use coroutines::{
    at_final, coroutine_at, is_over, not_suspended, not_taken_back, promise_number, serial_now,
    wrong_object,
};
pub use faults::{
    compares_dangling, counted, counted_alone, counted_of_two, dangles, is_indeterminate,
    is_no_block, is_no_place, is_no_room, is_not_new, is_null, is_outside,
};
pub use funcs::{
    counted_in, dtor_of_type, frame_bytes, func, func_at, func_span, holds_awaiter, is_class,
    is_noexcept, object_in, plan, type_of_slot,
};
pub use objects::{
    block_at, coroutine_in, handled, is_ended, is_live, newest, next_block, next_object, object_at,
    standing_in,
};
pub use places::{cell_at, fields, offset_at, type_at, words, words_of};
pub use pointers::{block_addressed, is_same};
