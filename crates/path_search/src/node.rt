//! The answers of an exploration.

use crate::reason::Reason;
use crate::visit::Link;
use ir_values::Seq;

/// A node of a graph that is accepted.
#[derive(Debug, Drop)]
pub struct Visited<N, D, E> {
    /// The node.
    pub node: N,
    /// What the node carries.
    pub item: D,
    /// Its edges, in order, each with the number of the node that it leads to and with its label.
    pub links: Seq<Link<E>>,
}

/// Why there is no list of nodes.
#[derive(Debug, Drop)]
pub enum Stop<N, K> {
    /// The graph is refused at this node, for this reason.
    Refused { at: N, reason: Reason<K> },
    /// There was no memory. It says nothing of the graph.
    Memory,
}
