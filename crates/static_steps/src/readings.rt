//! What a configuration tells of itself.
ghost use Rattle.std.specs.Prelude.{◌≡◌, ◌<◌, Some, length, slice_get};
ghost use Rattle.static_steps.specs.Results.{held_in};
ghost use Rattle.static_steps.specs.Steps.{start_of};

use crate::config::{Config, Frame};
use crate::phase::Phase;
use ir_module::Point;
use ir_values::{BlockId, FuncId, Seq};
use std::alloc::Global;

impl Config {
    /// Where constant evaluation starts: at the first point of the entry, with no name, no allocation and
    /// no returned result. It takes no memory.
    pub fn start(alloc: Global, entry: FuncId) -> Config
        ensures { result ≡ start_of entry }
    {
        let at = Point {
            func: entry,
            block: BlockId(0),
            index: 0,
        };
        Config {
            top: Frame {
                at,
                names: Seq::new(alloc),
            },
            below: Seq::new(alloc),
            allocated: 0,
            held: Seq::new(alloc),
            returned: 0,
            phase: Phase::Begin,
        }
    }

    /// The point of the top frame.
    pub fn top(&self) -> Point
        ensures { result ≡ self.now.top.at }
    {
        self.top.at
    }

    /// The number of allocations.
    pub fn allocated(&self) -> u64
        ensures { result ≡ self.now.allocated }
    {
        self.allocated
    }

    /// The number of returned results.
    pub fn returned(&self) -> u64
        ensures { result ≡ self.now.returned }
    {
        self.returned
    }

    /// Whether allocation `j` is held.
    pub fn holds(&self, j: u64) -> bool
        ensures { result ≡ held_in self.now.held j }
    {
        self.held.as_slice().iter().any(|i| *i == j)
    }

    /// How many allocations are held.
    pub fn held(&self) -> u64
        ensures { result ≡ length self.now.held }
    {
        self.held.len() as u64
    }

    /// The allocation held that is number `i` from 0 in increasing order; `i` is below [`Config::held`].
    pub fn held_at(&self, i: u64) -> u64
        requires { i < length self.now.held }
        ensures { slice_get self.now.held i ≡ Some result }
    {
        *self.held.at(i as usize)
    }
}
