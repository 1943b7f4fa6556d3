//! Nodes that were seen, with their indices.
ghost use Rattle.std.specs.Prelude.{◌≡◌, ◌<◌, [], Contains, Some, length, slice_get, map, IfOk};
ghost use Rattle.path_search.specs.code.Visit.{IsWith};

use indexmap::IndexSet;
use ir_values::{Exact, Memory};
use std::alloc::Global;
use std::hash::Hash;
use std::marker::Model;

/// A list of nodes, each once. Contracts see the list.
#[derive(Drop)]
pub struct Table<N: Eq + Hash> {
    nodes: IndexSet<N>,
}

impl<N: Eq + Hash> Model for Table<N> {
    ghost use Rattle.std.specs.Prelude.{List};

    ghost Value = { List N };

    ghost view = { λ t. t.nodes.keys };
}

impl<N: Exact + Hash + Drop> Table<N> {
    /// The empty table. It takes no memory.
    pub fn new(alloc: Global) -> Table<N>
        ensures { result ≡ [] }
    {
        Table {
            nodes: IndexSet::new(alloc),
        }
    }

    /// The number of nodes.
    pub fn len(&self) -> usize
        ensures { result ≡ length self.now }
    {
        self.nodes.len()
    }

    /// The node at an index, counted from 0 and below the length.
    pub fn at(&self, index: usize) -> &N
        requires { index < length self.now }
        ensures { slice_get self.now index ≡ Some result.now }
    {
        let Some(node) = self.nodes.get_index(index) else {
            unreachable!();
        };
        node
    }

    /// The index of a node, which is added last where it is not in the table. It looks once.
    pub fn index_of(&mut self, node: N) -> Result<usize, Memory>
        ensures at { IfOk result (λ i. slice_get self.new i ≡ Some node) }
        ensures grown { IfOk result (λ i. IsWith self.old node self.new) }
    {
        let (index, _) = self.nodes.insert_full(node)?;
        Ok(index)
    }

    /// Takes the node at an index, counted from 0 and below the length, out of the table.
    pub fn take(self, index: usize) -> N
        requires { index < length self }
        ensures { slice_get self index ≡ Some result }
    {
        let Table { mut nodes } = self;
        let Some(node) = nodes.swap_remove_index(index) else {
            unreachable!();
        };
        node
    }

    /// The nodes.
    pub fn into_nodes(self, alloc: Global) -> Result<Vec<Option<N>>, Memory>
        ensures { IfOk result (λ v. v.items ≡ map Some self) }
    {
        let Table { nodes } = self;
        let mut slots = Vec::with_capacity(alloc, nodes.len())?;
        for node in nodes {
            slots.push(Some(node))?;
        }
        Ok(slots)
    }
}
