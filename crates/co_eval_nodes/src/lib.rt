//! The parts of the program that a frame goes on with, read from its node.
#![tactic(auto)]

mod expressions;
mod statements;

pub use expressions::{
    Act, Arithmetic, Branches, Choice, DeleteIn, NewIn, Operation, Part, Throw, Update, act_in,
    arithmetic_in, await_of, branches_in, choice_in, compared_to, delete_in, exchanged_for, new_in,
    right_of_both, right_of_either, stored_to, throw_in, update_in,
};
pub use statements::{If, Loop, following, handlers_in, if_in, loop_in, next_init, next_statement};
