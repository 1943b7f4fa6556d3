//! A lowered module is lowered again.
#![tactic(auto)]

pub mod laws;
