//! The graph whose edges are nodes of their own.
ghost use Rattle.std.specs.Prelude.{◌≡◌, ◌+◌, ◌++◌, length, OnOk, IfOk};
ghost use Rattle.returning_edges.specs.code.Split as spec;

use graph_cycles::Graph;
use ir_values::{Memory, Seq};
use std::alloc::Global;

/// The targets of edges.
type Targets = Seq<usize>;

/// Adds the targets of the edges of one node, and answers the nodes of these edges.
fn edge_nodes(
    alloc: Global,
    graph: &Graph,
    mut edges: &[usize],
    targets: &mut Targets,
) -> Result<Seq<usize>, Memory>
    ensures nodes { IfOk result (λ nodes. nodes ≡ spec.numbers_from (length graph.now + length targets.old) (length edges.entry.now)) }
    ensures targets { OnOk result (targets.new ≡ targets.old ++ edges.entry.now) }
{
    let mut nodes = Seq::new(alloc);
    while let [target, rest @ ..] = edges {
        nodes.push(graph.as_slice().len() + targets.as_slice().len())?;
        targets.push(*target)?;
        edges = rest;
    }
    Ok(nodes)
}

/// Adds a node with one edge for each target.
fn push_singles(alloc: Global, split: &mut Graph, mut targets: &[usize]) -> Result<(), Memory>
    ensures { OnOk result (split.new ≡ split.old ++ spec.singles targets.entry.now) }
{
    while let [target, rest @ ..] = targets {
        split.push(Seq::from_slice(alloc, &[*target])?)?;
        targets = rest;
    }
    Ok(())
}

/// The nodes of the graph, each of which leads to the nodes of its edges, and then the nodes of the edges, each of which
/// leads to its target.
pub(crate) fn split(alloc: Global, graph: &Graph) -> Result<Graph, Memory>
    ensures { IfOk result (λ h. h ≡ spec.split graph.now) }
{
    let mut split = Graph::new(alloc);
    let mut targets = Targets::new(alloc);
    let mut nodes = graph.as_slice();
    while let [edges, rest @ ..] = nodes {
        split.push(edge_nodes(alloc, graph, edges.as_slice(), &mut targets)?)?;
        nodes = rest;
    }
    push_singles(alloc, &mut split, targets.as_slice())?;
    Ok(split)
}
