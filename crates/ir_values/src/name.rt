//! Names.
ghost use Rattle.std.specs.Prelude.{◌≡◌};
ghost use Rattle.std.proofs.Common.{rules};
ghost use Rattle.ir_values.specs.Equal.{equal_decides};
ghost use Rattle.ir_values.specs.Names.{name_text};

use crate::Bytes;
use crate::data::{Copies, Exact};
use crate::memory::Memory;
use std::alloc::Global;

/// A name of a constant, function, local or block, without its `@` or `%`: `Text` of its bytes, or
/// `Number` where it is written in digits alone (LLVM Language Reference, 'Identifiers').
#[derive(Debug, Drop, PartialEq, Eq, Hash)]
pub enum Name {
    Text(Bytes),
    Number(u32),
}

impl Copies for Name {
    fn copy(&self, alloc: Global) -> Result<Name, Memory> {
        Ok(match self {
            Name::Text(bytes) => Name::Text(bytes.copy(alloc)?),
            Name::Number(n) => Name::Number(*n),
        })
    }
}

impl Exact for Name {
    ghost exact = { Prim.search (rules, equal_decides) };
}

impl Name {
    /// The bytes of the name, and none where it is a number. It takes no memory.
    pub fn text(&self) -> &[u8]
        ensures { result.now ≡ name_text self.now }
    {
        match self {
            Name::Text(bytes) => bytes.as_slice(),
            Name::Number(_) => &[],
        }
    }
}
