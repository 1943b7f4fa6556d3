//! The list of the whole project, over a `Vec`.
ghost use Rattle.std.specs.Prelude.{◌≡◌, ◌<◌, ◌↔◌, [], ◌∷◌, ◌++◌, length, slice_get, slice_set, IsTrue, OnOk, OnErr, IfOk, MatchOption};
ghost use Rattle.std.specs.Hash as fed;
ghost use Rattle.std.specs.Coded.{coded_list};
ghost use Rattle.std.proofs.Common.{ap};
ghost use Rattle.ir_values.specs.Equal.{equal, equal_decides, equal_equiv, equal_per};

use crate::data::{Copies, Exact};
use crate::memory::Memory;
use std::alloc::Global;
use std::hash::{Hash, Hasher};
use std::marker::Model;
use std::slice;

/// A list of items that grows at its end, seen by contracts as the list of the items.
#[derive(Debug, Drop)]
pub struct Seq<T> {
    items: Vec<T>,
}

impl<T> Model for Seq<T> {
    ghost use Rattle.std.specs.Prelude.{List};
    ghost use Rattle.std.specs.Coded.{coded_list};

    ghost Value = { List T };

    ghost coded = { coded_list T.code };

    ghost view = { λ s. s.items.items };
}

impl<T> Seq<T> {
    /// The empty list. It takes no memory.
    pub fn new(alloc: Global) -> Seq<T>
        ensures { result ≡ [] }
    {
        Seq {
            items: Vec::new(alloc),
        }
    }

    /// The list of a `Vec`'s items. It takes no memory.
    pub fn from_vec(items: Vec<T>) -> Seq<T>
        ensures { result ≡ items.items }
    {
        Seq { items }
    }

    /// The items in a `Vec`. It takes no memory.
    pub fn into_vec(self) -> Vec<T>
        ensures { result.items ≡ self }
    {
        let Seq { items } = self;
        items
    }

    /// The number of items.
    pub fn len(&self) -> usize
        ensures { result ≡ length self.now }
    {
        self.items.len()
    }

    /// Whether there is no item.
    pub fn is_empty(&self) -> bool
        ensures { IsTrue result ↔ (self.now ≡ []) }
    {
        self.items.is_empty()
    }

    /// The items.
    pub fn as_slice(&self) -> &[T]
        ensures { result.now ≡ self.now }
    {
        self.items.as_slice()
    }

    /// The item at index `i`, counted from 0 and below the length.
    pub fn at(&self, i: usize) -> &T
        requires { i < length self.now }
        ensures { slice_get self.now i ≡ Some result.now }
    {
        &self.items[i]
    }

    /// Takes the last item away and answers it, or None where there is none.
    pub fn pop(&mut self) -> Option<T>
        ensures { MatchOption result ((self.old ≡ []) × (self.new ≡ [])) (λ last. self.old ≡ self.new ++ last ∷ []) }
    {
        self.items.pop()
    }
}

impl<T: Drop> Seq<T> {
    /// Adds `x` last. [`Memory`] leaves the list as it was, and `x` is dropped.
    pub fn push(&mut self, x: T) -> Result<(), Memory>
        ensures ok { OnOk result (self.new ≡ self.old ++ x ∷ []) }
        ensures err { OnErr result (self.new ≡ self.old) }
    {
        self.items.push(x)?;
        Ok(())
    }

    /// Moves the items of `more` to the end. [`Memory`] leaves the list as it was, and `more` is dropped.
    pub fn append(&mut self, more: Seq<T>) -> Result<(), Memory>
        ensures ok { OnOk result (self.new ≡ self.old ++ more) }
        ensures err { OnErr result (self.new ≡ self.old) }
    {
        let mut items = more.into_vec();
        self.items.append(&mut items)?;
        Ok(())
    }

    /// Writes `x` at index `i`, counted from 0 and below the length, in place of the item there.
    pub fn set(&mut self, i: usize, x: T)
        requires { i < length self.old }
        ensures { self.new ≡ slice_set self.old i x }
    {
        self.items[i] = x;
    }
}

impl<T: Copy + Drop> Seq<T> {
    /// The list of a slice's items.
    pub fn from_slice(alloc: Global, items: &[T]) -> Result<Seq<T>, Memory>
        ensures { IfOk result (λ s. s ≡ items.now) }
    {
        Ok(Seq {
            items: Vec::from_slice(alloc, items)?,
        })
    }

    /// Adds the items of a slice last. [`Memory`] leaves the list as it was.
    pub fn extend_from_slice(&mut self, more: &[T]) -> Result<(), Memory>
        ensures ok { OnOk result (self.new ≡ self.old ++ more.now) }
        ensures err { OnErr result (self.new ≡ self.old) }
    {
        self.items.extend_from_slice(more)?;
        Ok(())
    }
}

impl<T: Copies> Copies for Seq<T> {
    fn copy(&self, alloc: Global) -> Result<Seq<T>, Memory> {
        let mut items = Vec::with_capacity(alloc, self.items.len())?;
        for x in self.items.as_slice() {
            items.push(x.copy(alloc)?)?;
        }
        Ok(Seq { items })
    }
}

impl<T: Exact> PartialEq for Seq<T> {
    ghost eq = { equal (coded_list T.row.coded) };

    ghost laws = { equal_per (coded_list T.row.coded) };

    fn eq(&self, other: &Seq<T>) -> bool {
        self.items.as_slice() == other.items.as_slice()
    }
}

impl<T: Exact> Eq for Seq<T> {
    ghost laws = { equal_equiv (coded_list T.row.coded) };
}

impl<T: Exact + Hash> Hash for Seq<T> {
    ghost hash_input = { fed.slice T.hash_input };

    ghost respects_eq = { λ xs ys e. ap (fed.slice T.hash_input) ((equal_decides (coded_list T.row.coded) xs ys).0 e) };

    fn hash<H: Hasher>(&self, state: &mut H) {
        self.items.as_slice().hash(state);
    }
}

impl<T: Exact> Exact for Seq<T> {
    ghost exact = { λ xs ys. (equal_decides (coded_list T.row.coded) xs ys).0 };
}

impl<'a, T> IntoIterator for &'a Seq<T> {
    type Item = &'a T;

    type IntoIter = slice::Iter<'a, T>;

    ghost use Rattle.std.specs.Slice.Iter.{iter_rest, iter_steps};
    ghost use Rattle.std.specs.Prelude.{◌^◌, map};
    ghost use Rattle.std.specs.Iterator.Runs.{EveryRun, ItemsMapTo};

    ghost into_iter_gives = { λ s it. (iter_rest it ≡ s.now) × (length (iter_rest it) < 2 ^ 64)
        × EveryRun (iter_steps {A = T}) (λ p. ItemsMapTo p (λ x. x.now) (iter_rest p.from)) };

    fn into_iter(self) -> slice::Iter<'a, T> {
        self.items.as_slice().iter()
    }
}
