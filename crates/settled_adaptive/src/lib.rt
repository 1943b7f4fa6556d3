//! The Adaptive module that a residue is, constant evaluation lets pass.
#![tactic(auto)]

pub mod laws;
