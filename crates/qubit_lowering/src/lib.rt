//! The lowered program of an admitted module, or the first instruction that can't be lowered.
#![tactic(auto)]

mod codes;
mod lowering;
mod modules;
mod sources;

pub use lowering::lower_residue;
pub use modules::{lower, lower_counted};
