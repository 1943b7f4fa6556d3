//! What is left of instructions.
use crate::val::{Dyn, Val};
use ir_values::{BinOp, Bytes, Class, Conv, Flags, Int, Pred, Seq, Ty, Value, Width};

/// Values with their types.
pub type TypedVals = Seq<(Ty, Val)>;

/// What is left of an instruction whose result only a run tells, or that acts on the machine or on the
/// records. The first Dynamic value of an item is the number of its own result.
#[derive(Debug, Drop)]
pub enum Item {
    /// An operation on two integers of this width.
    Binary(Dyn, BinOp, Flags, Width, Val, Val),
    /// A comparison of two integers of this width.
    Icmp(Dyn, Pred, Width, Val, Val),
    /// An integer of the first width becomes one of the second.
    Convert(Dyn, Conv, Width, Val, Width),
    /// The second or the third value, integers of this width, by the first, a bit.
    Select(Dyn, Width, Val, Val, Val),
    /// The bit of a result.
    Read(Dyn, Value),
    /// Whether two results have equal bits.
    Equal(Dyn, Value, Value),
    /// The operation of this name on these arguments.
    Operation(Bytes, TypedVals),
    /// The record that a declared function of this class writes.
    Output(Class, TypedVals),
}

/// Which of the successors is taken.
#[derive(Debug, Drop)]
pub enum Choice {
    /// The only one.
    One,
    /// The first where the value is one, else the second.
    Branch(Dyn),
    /// The one of the first case, of this width, that equals the value, else the last.
    Switch(Dyn, Width, Seq<Int>),
}

/// What the entry returns.
#[derive(Clone, Copy, Debug, PartialEq, Eq)]
pub enum Code {
    /// This number.
    Known(i64),
    /// The signed number of a Dynamic value.
    Dynamic(Dyn),
}
