//! Lowering is sound: what the lowered module of a program keeps of it.
#![tactic(auto)]

pub mod laws;
