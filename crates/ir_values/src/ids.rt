//! The numbers of constants, functions, locals and blocks.
ghost use Rattle.std.proofs.Common.{rules};
ghost use Rattle.ir_values.specs.Equal.{equal_decides};

use crate::data::{Copies, Exact};
use crate::memory::Memory;
use std::alloc::Global;

/// A constant of a module, by its number in text order from 0.
#[derive(Clone, Copy, Debug, PartialEq, Eq, PartialOrd, Ord, Hash)]
pub struct GlobalId(pub u32);

/// A function of a module, by its number in text order from 0.
#[derive(Clone, Copy, Debug, PartialEq, Eq, PartialOrd, Ord, Hash)]
pub struct FuncId(pub u32);

/// A local name of a function, by its number from 0: parameters first, then results in text order.
#[derive(Clone, Copy, Debug, PartialEq, Eq, PartialOrd, Ord, Hash)]
pub struct LocalId(pub u64);

/// A basic block of a function, by its number in text order from 0.
#[derive(Clone, Copy, Debug, PartialEq, Eq, PartialOrd, Ord, Hash)]
pub struct BlockId(pub u32);

impl Copies for GlobalId {
    fn copy(&self, _alloc: Global) -> Result<GlobalId, Memory> {
        Ok(*self)
    }
}

impl Exact for GlobalId {
    ghost exact = { Prim.search (rules, equal_decides) };
}

impl Copies for FuncId {
    fn copy(&self, _alloc: Global) -> Result<FuncId, Memory> {
        Ok(*self)
    }
}

impl Exact for FuncId {
    ghost exact = { Prim.search (rules, equal_decides) };
}

impl Copies for LocalId {
    fn copy(&self, _alloc: Global) -> Result<LocalId, Memory> {
        Ok(*self)
    }
}

impl Exact for LocalId {
    ghost exact = { Prim.search (rules, equal_decides) };
}

impl Copies for BlockId {
    fn copy(&self, _alloc: Global) -> Result<BlockId, Memory> {
        Ok(*self)
    }
}

impl Exact for BlockId {
    ghost exact = { Prim.search (rules, equal_decides) };
}
