//! Graphs that are given by what each node does.
ghost use Rattle.std.specs.Prelude.{◌≡◌, ℕ, ◌+◌, ◌<◌, ◌^◌, List, map, IfOk};
ghost use Rattle.path_search.specs.Paths.{Turn};
ghost use Rattle.path_search.specs.code.Steps.{meant, IfNext, label, target, AllAt};

use ir_values::{Exact, Memory, Seq};
use std::alloc::Global;
use std::hash::Hash;

/// An edge to a successor, with the label that it carries.
#[derive(Debug, Drop)]
pub struct Edge<N, E> {
    pub to: N,
    pub label: E,
}

/// What a node does. Its data and labels are the graph's own: a search passes them on.
#[derive(Debug, Drop)]
pub enum Step<N, K, D, E> {
    /// It goes on to its successors, in this order, or is an exit where there is none.
    Next { data: D, edges: Seq<Edge<N, E>> },
    /// It is bad, of this kind.
    Bad(K),
}

/// A graph that is given by its start and by what each node does.
pub trait Graph {
    /// The nodes. They key a table.
    type Node: Exact + Hash + Drop;
    /// The kinds of bad nodes.
    type Kind: Drop;
    /// What a node carries besides its successors.
    type Data: Drop;
    /// What an edge carries.
    type Label: Drop;

    /// The node at which paths begin.
    ghost start: { Self → Self.Node };

    /// What each node does.
    ghost turn: { Self → Self.Node → Turn Self.Node Self.Kind };

    /// What is known of a node to which a path of so many edges leads.
    ghost IsValid: { Self → ℕ → Self.Node → Type 0 };

    /// What is known of a node's data and the labels of its edges.
    ghost Carries: { Self → Self.Node → Self.Data → List Self.Label → Type 0 };

    /// The node at which paths begin.
    fn start(&self, alloc: Global) -> Result<Self::Node, Memory>
        ensures is { IfOk result (λ node. node ≡ start self.now) }
        ensures valid { IfOk result (λ node. IsValid self.now 0 node) };

    /// What a node does.
    fn step(
        &self,
        alloc: Global,
        node: &Self::Node,
    ) -> Result<Step<Self::Node, Self::Kind, Self::Data, Self::Label>, Memory>
        requires { (depth : ℕ) × (depth + 1 < 2 ^ 64) × IsValid self.now depth node.now }
        ensures turn { IfOk result (λ step. meant step ≡ turn self.now node.now) }
        ensures carries { IfOk result (λ step. IfNext step (λ d edges. Carries self.now node.now d (map label edges))) }
        ensures valid { IfOk result (λ step. IfNext step (λ d edges.
            (depth : ℕ) → IsValid self.now depth node.now → AllAt (IsValid self.now (depth + 1)) (map target edges))) };
}
