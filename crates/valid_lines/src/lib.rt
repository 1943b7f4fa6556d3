//! The items of the lowered program that is made of the configurations of an admitted module are valid for
//! the target.
#![tactic(auto)]

pub mod laws;
