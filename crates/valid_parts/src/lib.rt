//! The parts of the lowered program that is made of the configurations of an admitted module start, lead
//! on, and define and use their values as those of a valid one do.
#![tactic(auto)]

pub mod laws;
