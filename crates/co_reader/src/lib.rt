//! Reads the front of a list of tokens: marks, words and names, operators, paths and types.
#![tactic(auto)]

mod cursor;
mod fault;
mod lead;
mod leads;
mod types;

pub use cursor::{Cursor, is_name};
pub use fault::ReadFault;
pub use lead::Lead;
pub use leads::{
    assignment_operator, begins_expression, binary_operator, builtin, closing, goes_on_as_type,
    handle_function, is_reference, library_function, library_object, literal, member_operator,
    opening, run_function, step_operator, strength_of, unary_operator,
};
pub use types::{
    library_type, names_class, path, reference, simple_type, stars, type_id, type_rest,
};
