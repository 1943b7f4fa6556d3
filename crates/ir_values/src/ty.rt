//! Types of values.
ghost use Rattle.std.specs.Prelude.{◌≡◌, ◌<◌, ◌^◌, ◌++◌, length, IsTrue, IfOk, OnOk};
ghost use Rattle.std.proofs.Common.{rules};
ghost use Rattle.ir_values.specs.Equal.{equal_decides};
ghost use Rattle.ir_values.specs.Types as spec;
ghost use Rattle.ir_values.specs.Words.{spells};

use crate::data::{Copies, Exact};
use crate::int::Width;
use crate::memory::Memory;
use crate::seq::Seq;
use crate::sig::{Sig, TyWord, Words};
use std::alloc::Global;

/// A type: `void`, an integer type, `double`, `%Qubit*`, `%Result*`, `i8*` (a text) or a function
/// pointer type (LLVM Language Reference, 'Type System'; QIR specification, 'Data Types').
#[derive(Debug, Drop, PartialEq, Eq, Hash)]
pub enum Ty {
    Void,
    Int(Width),
    Double,
    Qubit,
    Res,
    Text,
    Func(Sig),
}

/// A list of types.
pub type Tys = Seq<Ty>;

impl Copies for Ty {
    fn copy(&self, alloc: Global) -> Result<Ty, Memory> {
        Ok(match self {
            Ty::Void => Ty::Void,
            Ty::Int(width) => Ty::Int(*width),
            Ty::Double => Ty::Double,
            Ty::Qubit => Ty::Qubit,
            Ty::Res => Ty::Res,
            Ty::Text => Ty::Text,
            Ty::Func(sig) => Ty::Func(sig.copy(alloc)?),
        })
    }
}

impl Exact for Ty {
    ghost exact = { Prim.search (rules, equal_decides) };
}

impl Ty {
    /// Adds the words of the type last.
    fn push_words(&self, alloc: Global, words: &mut Words) -> Result<(), Memory>
        ensures ok { OnOk result (words.new ≡ words.old ++ spec.words_of self.now) }
        ensures one { IsTrue (spells (spec.words_of self.now) 1) }
    {
        match self {
            Ty::Void => words.push(TyWord::Void),
            Ty::Int(width) => words.push(TyWord::Int(*width)),
            Ty::Double => words.push(TyWord::Double),
            Ty::Qubit => words.push(TyWord::Qubit),
            Ty::Res => words.push(TyWord::Res),
            Ty::Text => words.push(TyWord::Text),
            Ty::Func(sig) => words.append(sig.words().copy(alloc)?),
        }
    }
}

impl Sig {
    /// The type of the functions that give `ret` and take `params`, fewer than 2^32. [`Memory`] comes
    /// where there is none for its words.
    pub fn new(alloc: Global, ret: &Ty, params: &Tys) -> Result<Sig, Memory>
        requires { length params.now < 2 ^ 32 }
        ensures { IfOk result (λ s. s ≡ spec.signature ret.now params.now) }
    {
        let mut words = Seq::new(alloc);
        words.push(TyWord::Func(params.len() as u32))?;
        ret.push_words(alloc, &mut words)?;
        for param in params.as_slice() {
            param.push_words(alloc, &mut words)?;
        }
        Ok(Sig::from_words(words))
    }
}
