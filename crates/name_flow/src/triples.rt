//! Numbers that are looked up by two others, in a sorted list.
ghost use Rattle.std.specs.Prelude.{◌≡◌, ◌≤◌, true, false, length};
ghost use Rattle.std.specs.List.Sorted.{IsPartitionPoint};
ghost use Rattle.name_flow.specs.code.Runs.{in_run};
ghost use Rattle.name_flow.specs.code.Triples.{next, holds, is_below, Ascends, NextHolds, Sorts};

use std::marker::Model;

/// Triples in ascending order, seen by contracts as their list.
#[derive(Debug, Drop)]
pub(crate) struct Triples {
    items: Vec<(u64, u64, u64)>,
}

impl Model for Triples {
    ghost use Rattle.std.specs.Prelude.{List, ℕ};

    ghost Value = { List (ℕ × ℕ × ℕ) };

    ghost use Rattle.name_flow.specs.code.Triples.{Ascends};

    ghost view = { λ t. t.items.items };

    ghost invariant = { λ t. Ascends t.items.items };
}

impl Triples {
    /// Puts the triples in order. It takes no memory.
    pub(crate) fn sort(mut items: Vec<(u64, u64, u64)>) -> Triples
        ensures { Sorts items.items result }
    {
        items.sort_unstable();
        Triples { items }
    }

    /// Triples that are in order. It takes no memory.
    pub(crate) fn of(items: Vec<(u64, u64, u64)>) -> Triples
        requires { Ascends items.items }
        ensures { result ≡ items.items }
    {
        Triples { items }
    }

    /// The least number from `c` on of a triple of `a` and `b`. It takes no memory.
    pub(crate) fn next(&self, a: u64, b: u64, c: u64) -> Option<u64>
        ensures value { result ≡ next self.now a b c }
        ensures held { NextHolds self.now a b c result }
    {
        let items = self.items.as_slice();
        let start = start(items, a, b, c);
        if start == items.len() {
            return None;
        }
        let found = &items[start];
        if found.0 == a && found.1 == b {
            Some(found.2)
        } else {
            None
        }
    }

    /// Whether the triple is there. It takes no memory.
    pub(crate) fn holds(&self, a: u64, b: u64, c: u64) -> bool
        ensures { result ≡ holds self.now a b c }
    {
        match self.next(a, b, c) {
            Some(n) => n == c,
            None => false,
        }
    }

    /// Whether the block `b` is in a run of the name `x`, where the triples are runs. It takes no memory.
    pub(crate) fn in_run(&self, x: u64, b: u64) -> bool
        ensures { result ≡ in_run self.now x b }
    {
        let items = self.items.as_slice();
        let start = start(items, x, b, 0);
        if start == items.len() {
            return false;
        }
        let run = &items[start];
        run.0 == x && run.2 <= b
    }

    /// The triples in order.
    pub(crate) fn as_slice(&self) -> &[(u64, u64, u64)]
        ensures { result.now ≡ self.now }
    {
        self.items.as_slice()
    }
}

/// The number of triples before the triple of `a`, `b` and `c`.
fn start(items: &[(u64, u64, u64)], a: u64, b: u64, c: u64) -> usize
    requires { Ascends items.now }
    ensures bound { result ≤ length items.now }
    ensures point { IsPartitionPoint (λ t. is_below a b c t ≡ true) (λ t. is_below a b c t ≡ false) items.now result }
{
    items.partition_point(|t| *t < (a, b, c))
}
