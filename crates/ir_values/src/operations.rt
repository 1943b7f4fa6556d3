//! Binary operations on integers.
ghost use Rattle.std.specs.Prelude.{◌≡◌, IsTrue};
ghost use Rattle.ir_values.specs.Arithmetic as spec;

mod arithmetic;
mod bitwise;
mod division;
mod shifts;

use crate::cause::Cause;
use crate::int::{BinOp, Flags, Int};

impl BinOp {
    /// Whether the flags may stand on the operation: `nuw` and `nsw` on `Add`, `Sub`, `Mul` and `Shl`,
    /// `exact` on `UDiv`, `SDiv`, `LShr` and `AShr`.
    pub fn allows(self, flags: Flags) -> bool
        ensures { result ≡ spec.allows self flags }
    {
        match self {
            BinOp::Add | BinOp::Sub | BinOp::Mul | BinOp::Shl => !flags.exact,
            BinOp::UDiv | BinOp::SDiv | BinOp::LShr | BinOp::AShr => !(flags.nuw || flags.nsw),
            _ => !(flags.nuw || flags.nsw) && !flags.exact,
        }
    }
}

/// The result of a binary operation on two integers of one width, modulo 2 to the width. The flags
/// are some that [`BinOp::allows`].
///
/// [`Cause::DivZero`] comes exactly for a zero divisor, [`Cause::Overflow`] exactly for `SDiv` or
/// `SRem` of the least value by -1, and [`Cause::Poison`] exactly for a broken flag or a shift by the
/// width or more (LLVM Language Reference, 'Binary Operations' and 'Bitwise Binary Operations'). It
/// takes no memory.
pub fn binary(op: BinOp, flags: Flags, a: Int, b: Int) -> Result<Int, Cause>
    requires width { a.width ≡ b.width }
    requires flags { IsTrue (spec.allows op flags) }
    ensures { result ≡ spec.binary_of op flags a b }
{
    match op {
        BinOp::Add => arithmetic::add(flags, a, b),
        BinOp::Sub => arithmetic::sub(flags, a, b),
        BinOp::Mul => arithmetic::mul(flags, a, b),
        BinOp::UDiv => division::udiv(flags, a, b),
        BinOp::SDiv => division::sdiv(flags, a, b),
        BinOp::URem => division::urem(flags, a, b),
        BinOp::SRem => division::srem(flags, a, b),
        BinOp::Shl => shifts::shl(flags, a, b),
        BinOp::LShr => shifts::lshr(flags, a, b),
        BinOp::AShr => shifts::ashr(flags, a, b),
        BinOp::And => bitwise::and(flags, a, b),
        BinOp::Or => bitwise::or(flags, a, b),
        BinOp::Xor => bitwise::xor(flags, a, b),
    }
}
