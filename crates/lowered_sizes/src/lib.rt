//! The sizes of lowered modules.
#![tactic(auto)]

pub mod laws;
