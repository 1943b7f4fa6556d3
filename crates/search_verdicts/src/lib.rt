//! Every search has a verdict.
#![tactic(auto)]

pub mod laws;
