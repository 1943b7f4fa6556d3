//! Plain data: a copy equals its source, and `==` compares by contents.
ghost use Rattle.std.specs.Prelude.{◌≡◌, ◌↔◌, IsTrue, IfOk};
ghost use Rattle.std.proofs.Common.{rules};

use crate::memory::Memory;
use std::alloc::Global;

/// A value that can be copied where there is memory for its parts.
pub trait Copies: Drop {
    /// A value that equals this one, or [`Memory`].
    fn copy(&self, alloc: Global) -> Result<Self, Memory>
        ensures { IfOk result (λ c. c ≡ self.now) };
}

/// A value that `==` compares by its contents: values are `==` exactly where they are equal.
/// So it can key a map.
pub trait Exact: Eq {
    /// Whether the two values are equal.
    final fn same(&self, other: &Self) -> bool
        ensures { IsTrue result ↔ (self.now ≡ other.now) }
    {
        *self == *other
    }

    ghost exact: { (x y : Self) → IsTrue (Self.eq x y) → x ≡ y };
}

impl Copies for u8 {
    fn copy(&self, _alloc: Global) -> Result<u8, Memory> {
        Ok(*self)
    }
}

impl Copies for u64 {
    fn copy(&self, _alloc: Global) -> Result<u64, Memory> {
        Ok(*self)
    }
}

impl<A: Copies, B: Copies> Copies for (A, B) {
    fn copy(&self, alloc: Global) -> Result<(A, B), Memory> {
        Ok((self.0.copy(alloc)?, self.1.copy(alloc)?))
    }
}

impl<T: Copies> Copies for Option<T> {
    fn copy(&self, alloc: Global) -> Result<Option<T>, Memory> {
        match self {
            Some(x) => Ok(Some(x.copy(alloc)?)),
            None => Ok(None),
        }
    }
}

impl Exact for u8 {
    ghost exact = { Prim.search rules };
}

impl Exact for u64 {
    ghost exact = { Prim.search rules };
}

impl<A: Exact, B: Exact> Exact for (A, B) {
    ghost exact = { Prim.search rules };
}

impl<T: Exact> Exact for Option<T> {
    ghost exact = { Prim.search rules };
}
