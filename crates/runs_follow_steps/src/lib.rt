//! Runs follow the static step: what a run does is what constant evaluation says.
#![tactic(auto)]

pub mod laws;
