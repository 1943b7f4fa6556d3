//! The schemas, and what the last line of a shot says.
use ir_values::Cause;

/// How records are told (QIR specification, 'Output Schemas').
#[derive(Clone, Copy, Debug, PartialEq, Eq)]
pub enum Schema {
    /// A record's label is its last field.
    Labeled,
    /// Records have no labels, and are told apart by their order.
    Ordered,
}

/// How a shot ended: with a code, or for want of something.
#[derive(Clone, Copy, Debug, PartialEq, Eq)]
pub enum Last {
    Code(i64),
    Stop(StopName),
}

/// Why a shot ended without a code.
#[derive(Clone, Copy, Debug, PartialEq, Eq)]
pub enum StopName {
    /// An instruction ended it.
    Trap(Cause),
    /// The machine can't do an operation.
    Unsupported,
    /// The machine has no outcome left.
    Empty,
    /// The machine failed.
    Failed,
    /// All steps were used.
    Cut,
}
