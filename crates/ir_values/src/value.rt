//! Values of operands.
ghost use Rattle.std.proofs.Common.{rules};
ghost use Rattle.ir_values.specs.Equal.{equal_decides};

use crate::data::{Copies, Exact};
use crate::ids::{FuncId, GlobalId};
use crate::int::Int;
use crate::memory::Memory;
use crate::token::Token;
use std::alloc::Global;

/// A value of an operand.
#[derive(Debug, Drop, PartialEq, Eq, Hash)]
pub enum Value {
    Int(Int),
    Double(Token),
    /// A qubit or result by its fixed number, as the module writes it.
    Id(u64),
    /// A qubit that the run allocated, by the number of its allocation from 0.
    Alloc(u64),
    /// A result that a measurement returned, by its number from 0.
    Measured(u64),
    /// The constant result one.
    One,
    /// The constant result zero.
    Zero,
    /// The address of a constant's bytes.
    Label(GlobalId),
    /// The null label.
    NoLabel,
    Func(FuncId),
}

impl Copies for Value {
    fn copy(&self, alloc: Global) -> Result<Value, Memory> {
        Ok(match self {
            Value::Int(i) => Value::Int(*i),
            Value::Double(token) => Value::Double(token.copy(alloc)?),
            Value::Id(n) => Value::Id(*n),
            Value::Alloc(n) => Value::Alloc(*n),
            Value::Measured(n) => Value::Measured(*n),
            Value::One => Value::One,
            Value::Zero => Value::Zero,
            Value::Label(g) => Value::Label(*g),
            Value::NoLabel => Value::NoLabel,
            Value::Func(f) => Value::Func(*f),
        })
    }
}

impl Exact for Value {
    ghost exact = { Prim.search (rules, equal_decides) };
}
