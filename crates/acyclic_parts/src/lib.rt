//! Without loops no part of a lowered program jumps back to itself.
#![tactic(auto)]

pub mod laws;
