//! Integers of a width.
ghost use Rattle.std.specs.Prelude.{◌≡◌, ◌+◌, ◌-◌, ◌*◌, ◌<◌, ◌≤◌, ◌^◌, ◌↔◌, IsNone, IfSome};
ghost use Rattle.std.proofs.Common.{rules};
ghost use Rattle.std.specs.Int.RustNames.{unsigned_abs};
ghost use Rattle.ir_values.specs.Width.{bits_of};
ghost use Rattle.ir_values.specs.Int.{IntValue, signed};
ghost use Rattle.ir_values.specs.Arithmetic as spec;

use crate::data::{Copies, Exact};
use crate::memory::Memory;
use std::alloc::Global;
use std::marker::Model;

/// The width of an integer type in code: `i1`, `i8`, `i16`, `i32` or `i64`
/// (LLVM Language Reference, 'Integer Type').
#[derive(Clone, Copy, Debug, PartialEq, Eq, Hash)]
pub enum Width {
    W1,
    W8,
    W16,
    W32,
    W64,
}

impl Width {
    /// The number of bits, from 1 to 64.
    pub fn bits(self) -> u32
        ensures { result ≡ bits_of self }
    {
        match self {
            Width::W1 => 1,
            Width::W8 => 8,
            Width::W16 => 16,
            Width::W32 => 32,
            Width::W64 => 64,
        }
    }

    /// The number whose sign bit alone is set.
    pub fn sign_bit(self) -> u64
        ensures value { result ≡ 2 ^ (bits_of self - 1) }
        ensures twice { 2 * result ≡ 2 ^ bits_of self }
    {
        match self {
            Width::W1 => 1,
            Width::W8 => 0x80,
            Width::W16 => 0x8000,
            Width::W32 => 0x8000_0000,
            Width::W64 => 0x8000_0000_0000_0000,
        }
    }

    /// The greatest unsigned number of this width, whose bits are all set.
    pub fn mask(self) -> u64
        ensures { result + 1 ≡ 2 ^ bits_of self }
    {
        match self {
            Width::W1 => 1,
            Width::W8 => 0xff,
            Width::W16 => 0xffff,
            Width::W32 => 0xffff_ffff,
            Width::W64 => u64::MAX,
        }
    }
}

impl Copies for Width {
    fn copy(&self, _alloc: Global) -> Result<Width, Memory> {
        Ok(*self)
    }
}

impl Exact for Width {
    ghost exact = { Prim.search rules };
}

/// An integer of a width, seen by contracts as its width and its bits as an unsigned number below
/// 2 to the width.
#[derive(Clone, Copy, Debug, PartialEq, Eq, Hash)]
pub struct Int {
    width: Width,
    bits: u64,
}

impl Model for Int {
    ghost use Rattle.std.specs.Prelude.{◌<◌, ◌^◌};
    ghost use Rattle.ir_values.specs.Width.{bits_of};
    ghost use Rattle.ir_values.specs.Int.{IntValue};

    ghost Value = { IntValue };

    ghost view = { λ i. record { width = i.width; bits = i.bits } };

    ghost invariant = { λ i. i.bits < 2 ^ bits_of i.width };

    ghost inverse = { λ v. record { width = v.width; bits = v.bits } };
}

impl Int {
    /// The integer of this width and these bits. None exactly where `bits` is at least 2 to the width.
    /// It takes no memory.
    pub fn new(width: Width, bits: u64) -> Option<Int>
        ensures fits { IsNone result ↔ (2 ^ bits_of width ≤ bits) }
        ensures value { IfSome result (λ i. i ≡ record { width = width; bits = bits }) }
    {
        if bits <= width.mask() {
            Some(Int { width, bits })
        } else {
            None
        }
    }

    /// Its width.
    pub fn width(&self) -> Width
        ensures { result ≡ self.now.width }
    {
        self.width
    }

    /// Its value in two's complement, from -2 to the width less 1, up to 2 to the width less 1, less 1.
    pub fn signed(&self) -> i64
        ensures { result ≡ signed self.now }
    {
        let half = self.width.sign_bit();
        if self.bits < half {
            self.bits as i64
        } else {
            (self.bits - half) as i64 - (half - 1) as i64 - 1
        }
    }

    /// Its bits as an unsigned number, below 2 to the width.
    pub fn bits(&self) -> u64
        ensures value { result ≡ self.now.bits }
        ensures fits { result < 2 ^ bits_of self.now.width }
    {
        self.bits
    }
}

impl Int {
    /// Its value as an unsigned number.
    pub(crate) fn unsigned_value(&self) -> i128
        ensures value { result ≡ spec.unsigned self.now }
        ensures range { unsigned_abs result < 2 ^ 64 }
    {
        i128::from(self.bits)
    }

    /// Its value in two's complement.
    pub(crate) fn signed_value(&self) -> i128
        ensures value { result ≡ signed self.now }
        ensures range { unsigned_abs result ≤ 2 ^ 63 }
    {
        i128::from(self.signed())
    }

    /// The integer of this width that is `value` modulo 2 to the width.
    pub(crate) fn modulo(width: Width, value: i128) -> Int
        ensures { result ≡ spec.modulo width value }
    {
        let bits = value.rem_euclid(i128::from(width.mask()) + 1) as u64;
        Int { width, bits }
    }
}

impl Copies for Int {
    fn copy(&self, _alloc: Global) -> Result<Int, Memory> {
        Ok(*self)
    }
}

impl Exact for Int {
    ghost exact = { Prim.search rules };
}

/// A binary instruction on integers (LLVM Language Reference, 'Binary Operations' and 'Bitwise
/// Binary Operations').
#[derive(Clone, Copy, Debug, PartialEq, Eq, Hash)]
pub enum BinOp {
    Add,
    Sub,
    Mul,
    UDiv,
    SDiv,
    URem,
    SRem,
    Shl,
    LShr,
    AShr,
    And,
    Or,
    Xor,
}

/// The flags of a binary instruction, each a promise that its result is exact in one sense.
#[derive(Clone, Copy, Debug, PartialEq, Eq, Hash)]
pub struct Flags {
    pub nuw: bool,
    pub nsw: bool,
    pub exact: bool,
}

/// A predicate of `icmp`: equal or not, and the unsigned and the signed orders (LLVM Language
/// Reference, 'icmp Instruction').
#[derive(Clone, Copy, Debug, PartialEq, Eq, Hash)]
pub enum Pred {
    Eq,
    Ne,
    Ugt,
    Uge,
    Ult,
    Ule,
    Sgt,
    Sge,
    Slt,
    Sle,
}

/// A conversion between integers of two widths (LLVM Language Reference, 'Conversion Operations').
#[derive(Clone, Copy, Debug, PartialEq, Eq, Hash)]
pub enum Conv {
    ZExt,
    SExt,
    Trunc,
}
