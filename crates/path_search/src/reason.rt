//! Why a node is not permitted.

/// Why a node is not permitted, with the kind `K` of a bad one.
#[derive(Clone, Copy, Debug, PartialEq, Eq)]
pub enum Reason<K> {
    /// The node is one more than the budget permits.
    OverBudget,
    /// The node is bad, of this kind.
    BadNode(K),
    /// A successor of the node lies on the path to it, where loops are not permitted.
    LeadsBack,
}
