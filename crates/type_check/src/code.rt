//! The rules of admission.
ghost use Rattle.std.specs.Prelude.{◌≡◌};
ghost use Rattle.std.proofs.Common.{rules};
ghost use Rattle.type_check.specs.Codes.{name_of};
ghost use Rattle.type_check.specs.Faults.{number};

use ir_values::{Copies, Exact, Memory};
use std::alloc::Global;

/// A rule that a module may break.
#[derive(Clone, Copy, Debug, PartialEq, Eq, Hash)]
pub enum TypeCode {
    /// The types of operands, switch cases, arguments, results, conversions or returns don't agree,
    /// or a call that gives nothing has a name.
    Types,
    /// A phi hasn't exactly one entry for each edge into its block, or two entries for one block differ.
    PhiEntries,
    /// An edge leads to a first block, or a first block has phis.
    EntryBlock,
    /// Two cases of a switch are equal.
    SwitchCase,
    /// No function is the entry, or a second one is.
    NoEntry,
    /// A required number of the entry is no plain decimal number of at most the limit.
    BadNumberAttr,
    /// The number of a qubit or a result isn't below the required number.
    IdRange,
    /// A declared function that has no class is called or used as a value.
    UnknownDecl,
    /// The entry has parameters, or returns another type than `i64` or `void`.
    EntrySignature,
    /// A constant or a function with a body has a name that begins with `__quantum__`.
    ReservedName,
}

impl TypeCode {
    /// The number of the rule in refusals, from 1 to 11; no rule has the number 5.
    pub fn number(self) -> u8
        ensures { result ≡ number self }
    {
        match self {
            TypeCode::Types => 1,
            TypeCode::PhiEntries => 2,
            TypeCode::EntryBlock => 3,
            TypeCode::SwitchCase => 4,
            TypeCode::NoEntry => 6,
            TypeCode::BadNumberAttr => 7,
            TypeCode::IdRange => 8,
            TypeCode::UnknownDecl => 9,
            TypeCode::EntrySignature => 10,
            TypeCode::ReservedName => 11,
        }
    }

    /// The name of the rule in refusals.
    pub fn name(self) -> &'static [u8]
        ensures { result.now ≡ name_of self }
    {
        match self {
            TypeCode::Types => b"Types",
            TypeCode::PhiEntries => b"PhiEntries",
            TypeCode::EntryBlock => b"EntryBlock",
            TypeCode::SwitchCase => b"SwitchCase",
            TypeCode::NoEntry => b"NoEntry",
            TypeCode::BadNumberAttr => b"BadNumberAttr",
            TypeCode::IdRange => b"IdRange",
            TypeCode::UnknownDecl => b"UnknownDecl",
            TypeCode::EntrySignature => b"EntrySignature",
            TypeCode::ReservedName => b"ReservedName",
        }
    }
}

impl Copies for TypeCode {
    fn copy(&self, _alloc: Global) -> Result<TypeCode, Memory> {
        Ok(*self)
    }
}

impl Exact for TypeCode {
    ghost exact = { Prim.search rules };
}
