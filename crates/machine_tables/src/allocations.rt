//! The qubits that a run allocated.
ghost use Rattle.std.specs.Prelude.{◌≡◌, ◌==◌, ◌+◌, [], ◌∷◌, ◌++◌, not, filter, OnOk, IfOk};
ghost use Rattle.std.specs.List.{list_any};

use ir_values::{Memory, Seq};
use std::alloc::Global;
use std::marker::Model;

/// The allocations of a run, seen by contracts as their number and the list of those that are held.
#[derive(Drop)]
pub struct Allocations {
    /// Whether each is held.
    held: Seq<bool>,
}

impl Model for Allocations {
    ghost use Rattle.machine_tables.specs.Allocated.{Allocated, allocated_of};

    ghost Value = { Allocated };

    ghost view = { λ a. allocated_of a.held };
}

impl Allocations {
    /// There is none. It takes no memory.
    pub fn new(alloc: Global) -> Allocations
        ensures { result ≡ record { count = 0; held = [] } }
    {
        Allocations {
            held: Seq::new(alloc),
        }
    }

    /// One more, which is held. It answers its number, from 0. [`Memory`] leaves them as they were.
    pub fn allocate(&mut self) -> Result<u64, Memory>
        ensures number { IfOk result (λ n. n ≡ self.old.count) }
        ensures ok { OnOk result (self.new
            ≡ record { count = self.old.count + 1; held = self.old.held ++ self.old.count ∷ [] }) }
    {
        let number = self.held.len() as u64;
        self.held.push(true)?;
        Ok(number)
    }

    /// Whether the allocation of this number is held.
    pub fn is_held(&self, number: u64) -> bool
        ensures { result ≡ list_any (λ i. i == number) self.now.held }
    {
        match self.held.as_slice().get(number as usize) {
            Some(held) => *held,
            None => false,
        }
    }

    /// The allocation of this number is no longer held.
    pub fn release(&mut self, number: u64)
        ensures { self.new ≡ record {
          count = self.old.count;
          held = filter (λ i. not (i == number)) self.old.held;
        } }
    {
        if (number as usize) < self.held.len() {
            self.held.set(number as usize, false);
        }
    }
}
