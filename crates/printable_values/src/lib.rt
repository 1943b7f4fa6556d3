//! Known values that can be printed: what constants are, and what instructions on integers give.
#![tactic(auto)]

pub mod laws;
