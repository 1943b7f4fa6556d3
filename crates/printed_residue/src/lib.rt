//! What a run of the module that a residue is does at each place of the residue.
#![tactic(auto)]

pub mod laws;
