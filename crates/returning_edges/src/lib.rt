//! Which edges of a directed graph lead back to their source.
#![tactic(auto)]

mod answers;
mod split;

pub use answers::{Edges, edges_that_return};
