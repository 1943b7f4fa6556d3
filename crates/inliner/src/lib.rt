//! The static step: what the instruction at a configuration does by the values that are known.
#![tactic(auto)]

mod calls;
mod declared;
mod instructions;
mod static_step;
mod terminators;

pub use static_step::step;
