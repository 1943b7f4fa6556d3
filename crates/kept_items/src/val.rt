//! Values that constant evaluation knows, or that a run alone will tell.
ghost use Rattle.std.proofs.Common.{rules};

use ir_values::{Copies, Exact, Memory, Seq, Value};
use std::alloc::Global;

/// The number of a Dynamic value: an integer that only a run tells.
#[derive(Clone, Copy, Debug, PartialEq, Eq, Hash)]
pub struct Dyn(pub u64);

/// Dynamic values in an order.
pub type Dyns = Seq<Dyn>;

impl Copies for Dyn {
    fn copy(&self, _alloc: Global) -> Result<Dyn, Memory> {
        Ok(*self)
    }
}

impl Exact for Dyn {
    ghost exact = { Prim.search rules };
}

/// A value that is known, or the Dynamic value of a number.
#[derive(Debug, Drop)]
pub enum Val {
    Known(Value),
    Dynamic(Dyn),
}

impl Copies for Val {
    fn copy(&self, alloc: Global) -> Result<Val, Memory> {
        Ok(match self {
            Val::Known(v) => Val::Known(v.copy(alloc)?),
            Val::Dynamic(d) => Val::Dynamic(*d),
        })
    }
}
