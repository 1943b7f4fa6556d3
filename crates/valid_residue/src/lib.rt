//! The lowered program that is made of the configurations of an admitted module keeps the rules of a valid
//! residue that speak of the whole program.
#![tactic(auto)]

pub mod laws;
