//! Sets of pairs in the order in which they were added.
ghost use Rattle.std.specs.Prelude.{◌≡◌, ◌<◌, [], Some, length, slice_get, OnOk};
ghost use Rattle.name_flow.specs.code.Spread.{Adds};

use indexmap::IndexSet;
use ir_values::Memory;
use std::alloc::Global;
use std::marker::Model;

/// Pairs of a block and a name, each once, seen by contracts as their list.
#[derive(Debug, Drop)]
pub(crate) struct Pairs {
    items: IndexSet<(u64, u64)>,
}

impl Model for Pairs {
    ghost use Rattle.std.specs.Prelude.{List, ℕ};

    ghost Value = { List (ℕ × ℕ) };

    ghost view = { λ p. p.items.keys };
}

impl Pairs {
    /// No pair. It takes no memory.
    pub(crate) fn new(alloc: Global) -> Pairs
        ensures { result ≡ [] }
    {
        Pairs {
            items: IndexSet::new(alloc),
        }
    }

    /// The number of pairs.
    pub(crate) fn len(&self) -> usize
        ensures { result ≡ length self.now }
    {
        self.items.len()
    }

    /// The pair that was added as number `i`, counted from 0.
    pub(crate) fn at(&self, i: usize) -> (u64, u64)
        requires { i < length self.now }
        ensures { slice_get self.now i ≡ Some result }
    {
        match self.items.get_index(i) {
            Some(pair) => *pair,
            None => unreachable!(),
        }
    }

    /// Adds the pair last, if it isn't there.
    pub(crate) fn add(&mut self, pair: (u64, u64)) -> Result<(), Memory>
        ensures { OnOk result (Adds pair self.old self.new) }
    {
        self.items.insert(pair)?;
        Ok(())
    }

    /// The pairs in order.
    pub(crate) fn as_slice(&self) -> &[(u64, u64)]
        ensures { result.now ≡ self.now }
    {
        self.items.as_slice()
    }
}
