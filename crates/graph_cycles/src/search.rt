//! The depth-first search for components.
use ir_values::Seq;

/// How far the search has come with a node.
#[derive(Clone, Copy)]
pub(crate) enum Mark {
    /// The search has not met it.
    Unseen,
    /// It is the open node of this number.
    Open(usize),
    /// All nodes that it leads to are known, and whether it lies on a cycle.
    Closed(bool),
}

/// Where a component of open nodes begins: with this open node and this waiting target. The nodes of
/// a cyclic component lie on cycles; a component that is not cyclic has one node.
#[derive(Clone, Copy)]
pub(crate) struct Start {
    pub(crate) members: usize,
    pub(crate) targets: usize,
    pub(crate) cyclic: bool,
}

/// The state of the search. The open nodes stand in components, each of which leads to the next, and
/// within a component each node leads to each. The targets of edges that wait stand in the same order.
#[derive(Drop)]
pub(crate) struct Search {
    pub(crate) marks: Seq<Mark>,
    pub(crate) opens: Seq<usize>,
    pub(crate) targets: Seq<usize>,
    pub(crate) starts: Seq<Start>,
}
