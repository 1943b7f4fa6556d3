//! Configurations: what constant evaluation knows between two steps.
ghost use Rattle.std.proofs.Common.{rules};
ghost use Rattle.ir_values.specs.Equal.{equal_decides};
ghost use Rattle.static_steps.specs.code.Phases.{same_phase-decides};

use crate::phase::Phase;
use ir_module::Point;
use ir_values::{Copies, Exact, LocalId, Memory, Seq, Value};
use std::alloc::Global;

/// The local names of a frame that have a value, by rising number: `Some` of a known value, `None` where
/// the value is Dynamic.
pub type Names = Seq<(LocalId, Option<Value>)>;

/// A frame: where it stands, and its names.
#[derive(Debug, Drop, PartialEq, Eq, Hash)]
pub struct Frame {
    pub at: Point,
    pub names: Names,
}

impl Copies for Frame {
    fn copy(&self, alloc: Global) -> Result<Frame, Memory> {
        Ok(Frame {
            at: self.at,
            names: self.names.copy(alloc)?,
        })
    }
}

impl Exact for Frame {
    ghost exact = { Prim.search (rules, equal_decides) };
}

/// A configuration: all that constant evaluation knows of a run between two of its instructions. Two
/// are equal exactly where their contents are, so that a map can have them as keys.
#[derive(Debug, Drop, PartialEq, Eq, Hash)]
pub struct Config {
    /// The frame that goes on next.
    pub top: Frame,
    /// The frames that wait, each at the point after its call, the nearest first.
    pub below: Seq<Frame>,
    /// How many qubits were allocated.
    pub allocated: u64,
    /// The allocations that aren't released, by rising number.
    pub held: Seq<u64>,
    /// How many measurements returned a result.
    pub returned: u64,
    pub phase: Phase,
}

impl Copies for Config {
    fn copy(&self, alloc: Global) -> Result<Config, Memory> {
        Ok(Config {
            top: self.top.copy(alloc)?,
            below: self.below.copy(alloc)?,
            allocated: self.allocated,
            held: self.held.copy(alloc)?,
            returned: self.returned,
            phase: self.phase,
        })
    }
}

impl Exact for Config {
    ghost exact = { Prim.search (rules, equal_decides, same_phase-decides) };
}
