//! A list with room for more, whose pushes need no memory while there is room.
ghost use Rattle.std.specs.Prelude.{◌≡◌, ◌+◌, ◌-◌, ◌<◌, ◌≤◌, [], ◌∷◌, ◌++◌, length, OnOk, OnErr, IfErr, IsOk};

use crate::memory::Memory;
use crate::seq::Seq;
use std::alloc::{AllocFailed, Global};
use std::marker::Model;

/// A list of items, seen by contracts as its items and the number of items that it has room for.
#[derive(Debug, Drop)]
pub struct Room<T> {
    items: Vec<T>,
}

impl<T> Model for Room<T> {
    ghost use Rattle.std.specs.Prelude.{◌-◌, vec_len, vec_capacity};
    ghost use Rattle.ir_values.specs.Room.{Roomy, roomy_code};

    ghost Value = { Roomy T };

    ghost coded = { roomy_code T.code };

    ghost view = { λ r. record { items = r.items.items; spare = vec_capacity r.items - vec_len r.items } };
}

impl<T> Room<T> {
    /// The empty list. It takes no memory.
    pub fn new(alloc: Global) -> Room<T>
        ensures { result.items ≡ [] }
    {
        Room {
            items: Vec::new(alloc),
        }
    }

    /// The items.
    pub fn as_slice(&self) -> &[T]
        ensures { result.now ≡ self.now.items }
    {
        self.items.as_slice()
    }

    /// Makes room for `k` items more. [`Memory`] leaves the items as they were.
    pub fn reserve(&mut self, k: usize) -> Result<(), Memory>
        ensures room { OnOk result (k ≤ self.new.spare) }
        ensures items { self.new.items ≡ self.old.items }
        ensures kept { self.old.spare ≤ self.new.spare }
    {
        self.items.reserve(k)?;
        Ok(())
    }

    /// Adds `x` last, which needs no memory where there is room. An error hands `x` back and leaves the
    /// items as they were.
    pub fn push(&mut self, x: T) -> Result<(), AllocFailed<T>>
        ensures ok { OnOk result (self.new.items ≡ self.old.items ++ x ∷ []) }
        ensures err { OnErr result (self.new.items ≡ self.old.items) }
        ensures back { IfErr result (λ failed. failed.value ≡ x) }
        ensures succeeds { 0 < self.old.spare → IsOk result }
        ensures spare { self.old.spare ≤ self.new.spare + 1 }
    {
        self.items.push(x)
    }

    /// The list alone. It takes no memory.
    pub fn into_seq(self) -> Seq<T>
        ensures { result ≡ self.items }
    {
        let Room { items } = self;
        Seq::from_vec(items)
    }
}

impl<T: Copy + Drop> Room<T> {
    /// Adds the items of a slice last, which needs no memory where there is room for all of them.
    /// [`Memory`] leaves the items as they were.
    pub fn extend_from_slice(&mut self, more: &[T]) -> Result<(), Memory>
        ensures ok { OnOk result (self.new.items ≡ self.old.items ++ more.now) }
        ensures err { OnErr result (self.new.items ≡ self.old.items) }
        ensures succeeds { length more.now ≤ self.old.spare → IsOk result }
        ensures spare { self.old.spare ≤ self.new.spare + length more.now }
    {
        self.items.extend_from_slice(more)?;
        Ok(())
    }
}
