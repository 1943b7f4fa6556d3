//! The nodes of a graph in path order, or the first that is not permitted.
#![tactic(auto)]

mod assembly;
mod exploration;
mod graph;
pub mod laws;
mod limits;
mod node;
mod reason;
mod table;
mod visit;

pub use exploration::explore;
pub use graph::{Edge, Graph, Step};
pub use limits::Limits;
pub use node::{Stop, Visited};
pub use reason::Reason;
pub use visit::Link;
