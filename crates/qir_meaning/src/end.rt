//! The ends of runs.
ghost use Rattle.std.proofs.Common.{rules};
ghost use Rattle.ir_values.specs.Equal.{equal_decides};

use backend_api::Op;
use ir_values::{Cause, Copies, Exact, Memory};
use std::alloc::Global;

/// Why a machine that was asked for an operation gave no answer.
#[derive(Clone, Copy, Debug, PartialEq, Eq, Hash)]
pub enum Ask {
    /// It can't do this operation.
    Unsupported,
    /// It has no outcome left.
    Empty,
    /// It failed.
    Failed,
}

impl Copies for Ask {
    fn copy(&self, _alloc: Global) -> Result<Ask, Memory> {
        Ok(*self)
    }
}

impl Exact for Ask {
    ghost exact = { Prim.search rules };
}

/// How a run ended.
#[derive(Debug, Drop, PartialEq, Eq, Hash)]
pub enum End {
    /// The entry function returned this code; `ret void` is the code 0.
    Returned(i64),
    /// An instruction ended it.
    Trapped(Cause),
    /// The machine gave no answer to this operation.
    Asks(Op, Ask),
    /// All its steps were used, and it would have begun another instruction.
    Cut,
}

impl Copies for End {
    fn copy(&self, alloc: Global) -> Result<End, Memory> {
        Ok(match self {
            End::Returned(code) => End::Returned(*code),
            End::Trapped(cause) => End::Trapped(*cause),
            End::Asks(op, why) => End::Asks(op.copy(alloc)?, *why),
            End::Cut => End::Cut,
        })
    }
}

impl Exact for End {
    ghost exact = { Prim.search (rules, equal_decides) };
}
