//! The verdict of constant evaluation on a program.
#![tactic(auto)]

pub mod laws;
