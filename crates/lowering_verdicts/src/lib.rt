//! Lowering has exactly one answer.
#![tactic(auto)]

pub mod laws;
