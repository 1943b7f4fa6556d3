//! Records.
ghost use Rattle.std.proofs.Common.{rules};
ghost use Rattle.ir_values.specs.Equal.{equal_decides};

use ir_values::{Copies, Exact, GlobalId, Memory, Seq, Token};
use std::alloc::Global;

/// What a record shows: the beginning of a tuple or an array with its number of items, the bit of a
/// result, a boolean, an integer or a double.
#[derive(Debug, Drop, PartialEq, Eq, Hash)]
pub enum Shown {
    Tuple(i64),
    Array(i64),
    Res(bool),
    Bool(bool),
    Int(i64),
    Double(Token),
}

impl Copies for Shown {
    fn copy(&self, alloc: Global) -> Result<Shown, Memory> {
        Ok(match self {
            Shown::Tuple(count) => Shown::Tuple(*count),
            Shown::Array(count) => Shown::Array(*count),
            Shown::Res(bit) => Shown::Res(*bit),
            Shown::Bool(bit) => Shown::Bool(*bit),
            Shown::Int(int) => Shown::Int(*int),
            Shown::Double(token) => Shown::Double(token.copy(alloc)?),
        })
    }
}

impl Exact for Shown {
    ghost exact = { Prim.search (rules, equal_decides) };
}

/// A record with its label, the constant whose bytes it names. None is the null label.
#[derive(Debug, Drop, PartialEq, Eq, Hash)]
pub struct Record {
    pub shown: Shown,
    pub label: Option<GlobalId>,
}

/// A list of records, the oldest first.
pub type Records = Seq<Record>;

impl Copies for Record {
    fn copy(&self, alloc: Global) -> Result<Record, Memory> {
        Ok(Record {
            shown: self.shown.copy(alloc)?,
            label: self.label,
        })
    }
}

impl Exact for Record {
    ghost exact = { Prim.search (rules, equal_decides) };
}
