//! The module that a valid residue is has its numbers and names in order.
#![tactic(auto)]

pub mod laws;
