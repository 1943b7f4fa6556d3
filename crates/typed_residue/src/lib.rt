//! Rules of admission that the module of a valid residue keeps.
#![tactic(auto)]

pub mod laws;
