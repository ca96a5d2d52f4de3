//! The types that the parts of the core tree take and give, form by form.
#![tactic(auto)]
