//! The spellings of doubles.
ghost use Rattle.std.specs.Prelude.{◌≡◌, ◌↔◌, IsNone, IsTrue, IfSome, false};
ghost use Rattle.std.proofs.Common.{rules};
ghost use Rattle.ir_values.specs.Equal.{equal_decides};
ghost use Rattle.ir_values.specs.Double as spec;

use crate::Bytes;
use crate::data::{Copies, Exact};
use crate::double::is_double;
use crate::memory::Memory;
use std::alloc::Global;
use std::marker::Model;

/// The spelling of a double, seen by contracts as its bytes (LLVM Language Reference, 'Simple
/// Constants'). No arithmetic is done on it: two doubles are equal exactly where their spellings are.
#[derive(Debug, Drop, PartialEq, Eq, Hash)]
pub struct Token {
    bytes: Bytes,
}

impl Model for Token {
    ghost use Rattle.std.specs.Prelude.{List, ℕ, IsTrue};
    ghost use Rattle.ir_values.specs.Double.{is_double};

    ghost Value = { List ℕ };

    ghost view = { λ t. t.bytes };

    ghost invariant = { λ t. IsTrue (is_double t.bytes) };

    ghost inverse = { λ bytes. record { bytes = bytes } };
}

impl Token {
    /// The spelling of these bytes. None exactly where they don't spell a double. It takes no memory.
    pub fn new(bytes: Bytes) -> Option<Token>
        ensures none { IsNone result ↔ (spec.is_double bytes ≡ false) }
        ensures value { IfSome result (λ t. t ≡ bytes) }
    {
        if is_double(bytes.as_slice()) {
            Some(Token { bytes })
        } else {
            None
        }
    }

    /// The bytes of the spelling.
    pub fn as_slice(&self) -> &[u8]
        ensures value { result.now ≡ self.now }
        ensures double { IsTrue (spec.is_double self.now) }
    {
        self.bytes.as_slice()
    }
}

impl Copies for Token {
    fn copy(&self, alloc: Global) -> Result<Token, Memory> {
        Ok(Token {
            bytes: self.bytes.copy(alloc)?,
        })
    }
}

impl Exact for Token {
    ghost exact = { Prim.search (rules, equal_decides) };
}
