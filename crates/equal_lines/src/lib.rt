//! What `run` writes of a module and of its lowered module is the same, but for the attributes of the entry.
#![tactic(auto)]

pub mod laws;
