//! A lowered Base program is lowered to itself.
#![tactic(auto)]

pub mod laws;
