//! Shots of a module and of its lowered module write the same records and end alike.
#![tactic(auto)]

pub mod laws;
