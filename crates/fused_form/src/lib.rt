//! The parts of a lowered program are as long as they can be.
#![tactic(auto)]

pub mod laws;
