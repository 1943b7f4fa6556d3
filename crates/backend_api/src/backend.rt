//! What answers the operations of a run.
ghost use Rattle.std.specs.Prelude.{◌≡◌, true, List, Some, OnOk, IfOk, IfErr};
ghost use Rattle.backend_api.specs.declared.operation.Answer.TheVariants as answer;
ghost use Rattle.backend_api.specs.declared.operation.Event.{Event};
ghost use Rattle.backend_api.specs.declared.backend.Stop.TheVariants as stop;
ghost use Rattle.backend_api.specs.Backend.{BackendState, Answered, Refused, Keeps};
ghost use Rattle.backend_api.specs.Operations.{IsGate, IsMeasurement};

use crate::operation::{Event, Op};
use std::alloc::AllocFailed;
use thiserror::Error;

/// Why a backend gave no answer.
#[derive(Clone, Copy, Debug, PartialEq, Eq, Hash, Error)]
pub enum Stop {
    /// It can't do this operation.
    #[error("the operation is not supported")]
    Unsupported,
    /// It has no outcome left for a measurement.
    #[error("no outcome is left")]
    Empty,
    /// It had a fault.
    #[error("the backend failed")]
    Failed,
    /// There was no memory for the answer.
    #[error("out of memory")]
    Memory,
}

/// An operation that was refused, handed back, and why.
#[derive(Debug, Drop, Error)]
#[error("{why}")]
pub struct Turned {
    pub op: Op,
    pub why: Stop,
}

/// There was no memory to keep the event. Its operation is handed back.
impl From<AllocFailed<Event>> for Turned {
    ghost from_gives = { λ failed turned. (turned.op ≡ failed.value.op) × (turned.why ≡ stop.Memory) };

    fn from(failed: AllocFailed<Event>) -> Turned {
        Turned {
            op: failed.value.op,
            why: Stop::Memory,
        }
    }
}

/// What answers the operations of a run: a quantum machine, or what stands for one.
///
/// A backend may tell contracts the events that it answered, the oldest first, and how many outcomes of
/// measurements it has left. One that tells them does so after each call, and one that does not never
/// does. It says which operations it can do and which lists of events fit it, and no call changes
/// either; the events that it tells fit. It counts its faults from 0. The count never falls, and
/// stands still at `u64::MAX`.
///
/// An answered operation is one event more. A refused one is handed back and is none:
///
/// - [`Stop::Unsupported`] comes exactly where the backend can't do the operation.
/// - [`Stop::Empty`] comes exactly where it can, the operation is a measurement and no outcome is left,
///   and never where the number of outcomes isn't told.
/// - [`Stop::Failed`] comes only where the count of faults rose.
/// - [`Stop::Memory`] comes only where nothing is spare. Each answer needs at most one of what is spare,
///   and a refusal none.
pub trait Backend {
    /// What contracts see of it.
    ghost state: { Self → BackendState };

    /// The events that are told fit.
    ghost told_fits: { (b : Self) (es : List Event) → (state b).events ≡ Some es
        → (state b).fits es ≡ true };

    /// Does a gate, an operation that names no result.
    fn gate(&mut self, op: Op) -> Result<(), Turned>
        requires { IsGate op }
        ensures answered { OnOk result (Answered op answer.Done (state self.old) (state self.new)) }
        ensures refused { IfErr result (λ turned.
            Refused op turned (state self.old) (state self.new)) }
        ensures keeps { Keeps (state self.old) (state self.new) };

    /// Does a measurement, an operation that names one result, and answers its bit.
    fn measure(&mut self, op: Op) -> Result<bool, Turned>
        requires { IsMeasurement op }
        ensures answered { IfOk result (λ bit.
            Answered op (answer.Bit bit) (state self.old) (state self.new)) }
        ensures refused { IfErr result (λ turned.
            Refused op turned (state self.old) (state self.new)) }
        ensures keeps { Keeps (state self.old) (state self.new) };
}
