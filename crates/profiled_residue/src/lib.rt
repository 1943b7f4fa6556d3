//! The module that a valid residue is passes its profile.
#![tactic(auto)]

pub mod laws;
