//! Function pointer types as the words that spell them, so that no type holds itself.
ghost use Rattle.std.specs.Prelude.{◌≡◌};
ghost use Rattle.std.proofs.Common.{rules};
ghost use Rattle.ir_values.specs.Equal.{equal_decides};

use crate::data::{Copies, Exact};
use crate::int::Width;
use crate::memory::Memory;
use crate::seq::Seq;
use std::alloc::Global;
use std::marker::Model;

/// A word of a type. A type that isn't a function pointer type is one word. A function pointer type
/// with n parameters is `Func(n)`, the words of its return type, and those of each parameter in order.
#[derive(Clone, Copy, Debug, PartialEq, Eq, Hash)]
pub enum TyWord {
    Void,
    Int(Width),
    Double,
    Qubit,
    Res,
    Text,
    Func(u32),
}

impl Copies for TyWord {
    fn copy(&self, _alloc: Global) -> Result<TyWord, Memory> {
        Ok(*self)
    }
}

impl Exact for TyWord {
    ghost exact = { Prim.search (rules, equal_decides) };
}

/// A list of words.
pub type Words = Seq<TyWord>;

/// A function pointer type, seen by contracts as its words, which spell exactly one such type (LLVM
/// Language Reference, 'Function Type').
#[derive(Debug, Drop, PartialEq, Eq, Hash)]
pub struct Sig {
    words: Words,
}

impl Model for Sig {
    ghost use Rattle.std.specs.Prelude.{List};
    ghost use Rattle.ir_values.specs.declared.sig.TyWord.{TyWord};
    ghost use Rattle.ir_values.specs.Words.{IsSig};

    ghost Value = { List TyWord };

    ghost view = { λ s. s.words };

    ghost invariant = { λ s. IsSig s.words };

    ghost inverse = { λ words. record { words = words } };
}

impl Sig {
    ghost use Rattle.ir_values.specs.Words.{IsSig};

    /// The function pointer type that these words spell.
    pub(crate) fn from_words(words: Words) -> Sig
        requires { IsSig words }
        ensures { result ≡ words }
    {
        Sig { words }
    }

    /// Its words. It takes no memory.
    pub fn words(&self) -> &Words
        ensures words { result.now ≡ self.now }
        ensures one { IsSig self.now }
    {
        &self.words
    }
}

impl Copies for Sig {
    fn copy(&self, alloc: Global) -> Result<Sig, Memory> {
        Ok(Sig {
            words: self.words.copy(alloc)?,
        })
    }
}

impl Exact for Sig {
    ghost exact = { Prim.search (rules, equal_decides) };
}
