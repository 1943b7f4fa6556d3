//! The static step of a module without faults: it is never lost, and leads from configurations of the
//! module to configurations of the module.
#![tactic(auto)]

pub mod laws;
