//! Modules of the same behaviour: where the run of one goes on for ever, that of the other does.
#![tactic(auto)]

pub mod laws;
