//! How functions are called, what stands around their bodies, how the members of an object are made, and how all these are left.
#![tactic(auto)]

mod arguments;
mod binding;
mod entering;
mod leaving;
mod lists;
mod members;

pub use arguments::{argument, argument_lives};
pub use entering::{around, enter};
pub use leaving::{
    all_fields, at_border, call_returned, constructor_left, field_count, function_left,
};
pub use lists::no_objects;
pub use members::{field_made, next_element, next_member};
