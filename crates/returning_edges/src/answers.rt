//! The edges that lead back.
ghost use Rattle.std.specs.Prelude.{◌≡◌, ◌++◌, map, OnOk, IfOk};
ghost use Rattle.graph_cycles.specs.Cycles.{successors};
ghost use Rattle.returning_edges.specs.code.Split as spec;
ghost use Rattle.returning_edges.specs.Returns.{IsClosed, AreReturning};

use crate::split::split;
use graph_cycles::{Graph, laws, on_cycle};
use ir_values::{Memory, Seq};
use std::alloc::Global;

/// Edges of a graph: the source and the target of each.
pub type Edges = Seq<(usize, usize)>;

fn mark(on: &[bool], node: usize) -> bool
    ensures { result ≡ spec.mark on.now node }
{
    match on.get(node) {
        Some(mark) => *mark,
        None => false,
    }
}

fn successors(graph: &Graph, node: usize) -> &[usize]
    ensures { result.now ≡ successors graph.now node }
{
    match graph.as_slice().get(node) {
        Some(targets) => targets.as_slice(),
        None => &[],
    }
}

fn push_targets(found: &mut Edges, source: usize, mut targets: &[usize]) -> Result<(), Memory>
    ensures { OnOk result (found.new ≡ found.old ++ map (λ v. (source, v)) targets.entry.now) }
{
    while let [target, rest @ ..] = targets {
        found.push((source, *target))?;
        targets = rest;
    }
    Ok(())
}

/// Adds the edge from a source whose node this is, if it is marked.
fn push_edge(
    found: &mut Edges,
    on: &[bool],
    split: &Graph,
    source: usize,
    node: usize,
) -> Result<(), Memory>
    ensures { OnOk result (found.new ≡ found.old ++ spec.chosen_one on.now split.now source node) }
{
    if mark(on, node) {
        push_targets(found, source, successors(split, node))
    } else {
        Ok(())
    }
}

/// Adds the edges from a source whose nodes are marked.
fn push_edges(
    found: &mut Edges,
    on: &[bool],
    split: &Graph,
    source: usize,
    mut nodes: &[usize],
) -> Result<(), Memory>
    ensures { OnOk result (found.new ≡ found.old ++ spec.chosen on.now split.now source nodes.entry.now) }
{
    while let [node, rest @ ..] = nodes {
        push_edge(found, on, split, source, *node)?;
        nodes = rest;
    }
    Ok(())
}

/// The edges from so many sources whose nodes are marked.
fn marked_edges(alloc: Global, on: &[bool], split: &Graph, sources: usize) -> Result<Edges, Memory>
    ensures { IfOk result (λ edges. edges ≡ spec.chosen_from on.now split.now 0 sources) }
{
    let mut found = Edges::new(alloc);
    for source in 0..sources {
        push_edges(&mut found, on, split, source, successors(split, source))?;
    }
    Ok(found)
}

/// The edges of a graph that lead back: those from whose target some walk leads to their source. Each edge has to lead to
/// a node. It takes time and memory in proportion to the nodes and edges. The only error is want of memory.

pub fn edges_that_return(alloc: Global, graph: &Graph) -> Result<Edges, Memory>
    requires { IsClosed graph.now }
    ensures { IfOk result (AreReturning graph.now) }
{
    let split = split(alloc, graph)?;
    let on = on_cycle(alloc, &split)?;
    laws::edges_lead_back();
    marked_edges(alloc, on.as_slice(), &split, graph.len())
}
