//! The lowered program of a module that can be printed has pieces that can be printed.
#![tactic(auto)]

pub mod laws;
