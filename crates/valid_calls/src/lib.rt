//! The operations of the lowered program that is made of an admitted module's configurations: one name has
//! one list of types, and measurements can't be undone.
#![tactic(auto)]

pub mod laws;
