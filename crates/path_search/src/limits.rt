//! What a search permits.

/// What a search permits of a graph.
#[derive(Clone, Copy, Debug, PartialEq, Eq)]
pub struct Limits {
    /// How many nodes.
    pub budget: usize,
    /// Whether a path may come back to a node on it.
    pub loops: bool,
}
