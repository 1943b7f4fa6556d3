//! Constant evaluation of a module that can be printed leaves only what can be printed.
#![tactic(auto)]

pub mod laws;
