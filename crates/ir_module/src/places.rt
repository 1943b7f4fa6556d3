//! The parts of a module that a fault is told at, and their places in its text.
ghost use Rattle.std.specs.Prelude.{◌≡◌, ◌++◌, ◌∷◌, [], IsSome, OnOk, OnErr};
ghost use Rattle.std.proofs.Common.{rules};
ghost use Rattle.ir_module.specs.Places as spec;

use indexmap::IndexMap;
use ir_values::{BlockId, Copies, Exact, FuncId, Memory};
use std::alloc::Global;
use std::marker::Model;

/// A phi, an instruction or the terminator of a block. `index` counts them in this order from 0.
#[derive(Clone, Copy, Debug, PartialEq, Eq, PartialOrd, Ord, Hash)]
pub struct Point {
    pub func: FuncId,
    pub block: BlockId,
    pub index: u64,
}

impl Copies for Point {
    fn copy(&self, _alloc: Global) -> Result<Point, Memory> {
        Ok(*self)
    }
}

impl Exact for Point {
    ghost exact = { Prim.search rules };
}

/// A part of a module that a fault is told at. The order of spots is: the module, then for each
/// function the function itself and its points.
#[derive(Clone, Copy, Debug, PartialEq, Eq, Hash)]
pub enum Spot {
    Module,
    Func(FuncId),
    At(Point),
}

impl Copies for Spot {
    fn copy(&self, _alloc: Global) -> Result<Spot, Memory> {
        Ok(*self)
    }
}

impl Exact for Spot {
    ghost exact = { Prim.search rules };
}

/// A place in a text: its line, counted from 1 by line feeds, and its column, counted from 1 in bytes.
#[derive(Clone, Copy, Debug, PartialEq, Eq)]
pub struct Place {
    pub line: u32,
    pub column: u32,
}

impl Copies for Place {
    fn copy(&self, _alloc: Global) -> Result<Place, Memory> {
        Ok(*self)
    }
}

impl Exact for Place {
    ghost exact = { Prim.search rules };
}

/// The places of spots, seen by contracts as the list of pairs that were added, in the order of the
/// spots.
#[derive(Debug, Drop)]
pub struct Places {
    places: IndexMap<Spot, Place>,
}

impl Model for Places {
    ghost use Rattle.std.specs.Prelude.{List};
    ghost use Rattle.ir_module.specs.declared.places.Spot.{Spot};
    ghost use Rattle.ir_module.specs.declared.places.Place.{Place};

    ghost Value = { List (Spot × Place) };

    ghost view = { λ p. p.places.entries };
}

impl Places {
    /// No place. It takes no memory.
    pub fn new(alloc: Global) -> Places
        ensures { result ≡ [] }
    {
        Places {
            places: IndexMap::new(alloc),
        }
    }

    /// Adds `p` as the place of `s`, which comes after each spot that was added before. [`Memory`]
    /// leaves the places as they were.
    #[tactic(auto, using(crate::proofs::Found::added))]
    pub fn push(&mut self, s: Spot, p: Place) -> Result<(), Memory>
        requires { spec.ComesAfter self.old s }
        ensures ok { OnOk result (self.new ≡ self.old ++ (s, p) ∷ []) }
        ensures err { OnErr result (self.new ≡ self.old) }
    {
        self.places.insert(s, p)?;
        Ok(())
    }

    /// The place of a spot that was added. It takes no memory.
    #[tactic(auto, using(crate::proofs::Found::found))]
    pub fn of(&self, s: Spot) -> Place
        requires { IsSome (spec.place_of self.now s) }
        ensures { spec.place_of self.now s ≡ Some result }
    {
        match self.places.get(&s) {
            Some(place) => *place,
            None => unreachable!(),
        }
    }
}
