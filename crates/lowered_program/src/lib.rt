//! The lowered program of a module, made of its reachable configurations.
#![tactic(auto)]

mod exits;
mod given;
mod irreversible;
mod making;
mod parameters;
mod parts;
mod required;

pub use making::{Given, residue_of};
