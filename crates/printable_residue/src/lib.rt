//! The module that a valid residue is can be printed, where the residue's own pieces can.
#![tactic(auto)]

pub mod laws;
