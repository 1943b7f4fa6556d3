//! Without loops the runs of a module end within as many steps as it has configurations.
#![tactic(auto)]

pub mod laws;
