//! Operations and events.
ghost use Rattle.std.proofs.Common.{rules};
ghost use Rattle.ir_values.specs.Equal.{equal_decides};

use ir_values::{Bytes, Copies, Exact, Int, Memory, Seq, Token};
use std::alloc::Global;

/// A qubit: by the fixed number that the module writes, or by the number of its allocation in the run,
/// from 0.
#[derive(Clone, Copy, Debug, PartialEq, Eq, Hash)]
pub enum QubitRef {
    Id(u64),
    Alloc(u64),
}

impl Copies for QubitRef {
    fn copy(&self, _alloc: Global) -> Result<QubitRef, Memory> {
        Ok(*self)
    }
}

impl Exact for QubitRef {
    ghost exact = { Prim.search rules };
}

/// A result: by the fixed number that the module writes, or by the number of the measurement that
/// returned it in the run, from 0.
#[derive(Clone, Copy, Debug, PartialEq, Eq, Hash)]
pub enum ResultRef {
    Id(u64),
    Measured(u64),
}

impl Copies for ResultRef {
    fn copy(&self, _alloc: Global) -> Result<ResultRef, Memory> {
        Ok(*self)
    }
}

impl Exact for ResultRef {
    ghost exact = { Prim.search rules };
}

/// An argument of an operation.
#[derive(Debug, Drop, PartialEq, Eq, Hash)]
pub enum Arg {
    Qubit(QubitRef),
    Res(ResultRef),
    Double(Token),
    Int(Int),
}

/// The arguments of an operation, in order.
pub type Args = Seq<Arg>;

impl Copies for Arg {
    fn copy(&self, alloc: Global) -> Result<Arg, Memory> {
        Ok(match self {
            Arg::Qubit(qubit) => Arg::Qubit(*qubit),
            Arg::Res(result) => Arg::Res(*result),
            Arg::Double(token) => Arg::Double(token.copy(alloc)?),
            Arg::Int(int) => Arg::Int(*int),
        })
    }
}

impl Exact for Arg {
    ghost exact = { Prim.search (rules, equal_decides) };
}

/// An operation: the name of a quantum instruction with its arguments. It is a gate where it has no
/// `Res` argument, and a measurement where it has one. No backend is asked for one that has more.
#[derive(Debug, Drop, PartialEq, Eq, Hash)]
pub struct Op {
    pub name: Bytes,
    pub args: Args,
}

impl Copies for Op {
    fn copy(&self, alloc: Global) -> Result<Op, Memory> {
        Ok(Op {
            name: self.name.copy(alloc)?,
            args: self.args.copy(alloc)?,
        })
    }
}

impl Exact for Op {
    ghost exact = { Prim.search (rules, equal_decides) };
}

/// What the machine answers: that a gate is done, or the bit of a measurement.
#[derive(Clone, Copy, Debug, PartialEq, Eq, Hash)]
pub enum Answer {
    Done,
    Bit(bool),
}

/// A list of answers, in order.
pub type Answers = Seq<Answer>;

impl Copies for Answer {
    fn copy(&self, _alloc: Global) -> Result<Answer, Memory> {
        Ok(*self)
    }
}

impl Exact for Answer {
    ghost exact = { Prim.search rules };
}

/// An operation that was issued, with its answer.
#[derive(Debug, Drop, PartialEq, Eq, Hash)]
pub struct Event {
    pub op: Op,
    pub answer: Answer,
}

/// A list of events, the oldest first.
pub type Events = Seq<Event>;

impl Copies for Event {
    fn copy(&self, alloc: Global) -> Result<Event, Memory> {
        Ok(Event {
            op: self.op.copy(alloc)?,
            answer: self.answer,
        })
    }
}

impl Exact for Event {
    ghost exact = { Prim.search (rules, equal_decides) };
}
