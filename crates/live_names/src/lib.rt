//! Names that are live in a printed residue.
#![tactic(auto)]

pub mod laws;
