//! Objects, calls of functions and coroutines: how each begins and ends, step by step.
#![tactic(auto)]
