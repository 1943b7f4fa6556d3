//! What constants leave undecided in a lowered program.
#![tactic(auto)]

pub mod laws;
