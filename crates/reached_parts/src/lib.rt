//! A jump leads to each part with parameters of a lowered program.
#![tactic(auto)]

pub mod laws;
