//! Shots: runs of an admitted module that given bits answer, or classical bits in the place of qubits.
#![tactic(auto)]

mod backend;
mod laws;

pub use backend::{Backend, Outcome};
pub use laws::{shots_are_one, shots_exist};
