//! What the budget of lowering counts.
#![tactic(auto)]

pub mod laws;
