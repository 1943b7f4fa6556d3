//! Sets of pairs.
ghost use Rattle.std.specs.Prelude.{◌≡◌, [], ℕ, OnOk, IfOk};
ghost use Rattle.adaptive_profile.specs.code.Pairs as spec;

use indexmap::IndexSet;
use ir_values::Memory;
use std::alloc::Global;
use std::marker::Model;

/// Pairs of numbers, each once, seen by contracts as their list.
#[derive(Drop)]
pub(crate) struct Pairs {
    items: IndexSet<(usize, usize)>,
}

impl Model for Pairs {
    ghost use Rattle.std.specs.Prelude.{List, ℕ};

    ghost Value = { List (ℕ × ℕ) };

    ghost view = { λ p. p.items.keys };
}

impl Pairs {
    fn new(alloc: Global) -> Pairs
        ensures { result ≡ [] }
    {
        Pairs {
            items: IndexSet::new(alloc),
        }
    }

    fn add(&mut self, pair: (usize, usize)) -> Result<(), Memory>
        ensures { OnOk result (self.new ≡ spec.with_pair self.old pair) }
    {
        self.items.insert(pair)?;
        Ok(())
    }

    /// Whether the pair is there.
    pub(crate) fn holds(&self, pair: (usize, usize)) -> bool
        ensures { result ≡ spec.holds self.now pair }
    {
        self.items.contains(&pair)
    }

    /// The set of these pairs.
    pub(crate) fn of(alloc: Global, mut list: &[(usize, usize)]) -> Result<Pairs, Memory>
        ensures { IfOk result (λ pairs. (p : ℕ × ℕ) → spec.holds pairs p ≡ spec.holds list.entry.now p) }
    {
        let mut pairs = Pairs::new(alloc);
        while let [pair, rest @ ..] = list {
            pairs.add(*pair)?;
            list = rest;
        }
        Ok(pairs)
    }
}
