//! Whether each part of an expression or an initializer of the core tree has the type that its form needs.
#![tactic(auto)]

mod checked;
mod tables;
#[cfg(test)]
mod tests;
mod walk;
mod wholes;

pub use checked::Checked;
pub use tables::{class_info, func_at, is_plain, is_thrown_class, slot_of, slot_type};
pub use walk::{Scene, after_this, check, check_await, fields_fit, init_fits};
pub use wholes::Wholes;
