//! Configurations within a step, where each Dynamic name has the number of its value.
use crate::phase::Phase;
use ir_module::Point;
use ir_values::{Copies, LocalId, Memory, Seq};
use kept_items::Val;
use std::alloc::Global;

/// The local names of a frame that have a value, by rising number.
pub type WorkNames = Seq<(LocalId, Val)>;

/// A frame within a step.
#[derive(Debug, Drop)]
pub struct WorkFrame {
    pub at: Point,
    pub names: WorkNames,
}

impl Copies for WorkFrame {
    fn copy(&self, alloc: Global) -> Result<WorkFrame, Memory> {
        Ok(WorkFrame {
            at: self.at,
            names: self.names.copy(alloc)?,
        })
    }
}

/// A configuration within a step.
#[derive(Debug, Drop)]
pub struct Work {
    pub top: WorkFrame,
    pub below: Seq<WorkFrame>,
    pub allocated: u64,
    pub held: Seq<u64>,
    pub returned: u64,
    pub phase: Phase,
}
