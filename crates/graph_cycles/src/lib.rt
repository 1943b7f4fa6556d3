//! Which nodes of a directed graph lie on a cycle.
#![tactic(auto)]

mod cycles;
pub mod laws;
mod search;

pub use cycles::{Graph, on_cycle};
