//! A lowered module behaves as its source.
#![tactic(auto)]

pub mod laws;
