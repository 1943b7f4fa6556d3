//! Operations on each bit.
ghost use Rattle.std.specs.Prelude.{◌≡◌};
ghost use Rattle.ir_values.specs.Arithmetic as spec;
ghost use Rattle.ir_values.specs.declared.int.BinOp.TheVariants as op;

use crate::cause::Cause;
use crate::int::{Flags, Int};

#[tactic(auto, unfolding(crate::specs::Arithmetic::binary_of))]
pub(super) fn and(flags: Flags, a: Int, b: Int) -> Result<Int, Cause>
    ensures { result ≡ spec.binary_of op.And flags a b }
{
    Ok(Int::modulo(a.width(), i128::from(a.bits() & b.bits())))
}

#[tactic(auto, unfolding(crate::specs::Arithmetic::binary_of))]
pub(super) fn or(flags: Flags, a: Int, b: Int) -> Result<Int, Cause>
    ensures { result ≡ spec.binary_of op.Or flags a b }
{
    Ok(Int::modulo(a.width(), i128::from(a.bits() | b.bits())))
}

#[tactic(auto, unfolding(crate::specs::Arithmetic::binary_of))]
pub(super) fn xor(flags: Flags, a: Int, b: Int) -> Result<Int, Cause>
    ensures { result ≡ spec.binary_of op.Xor flags a b }
{
    Ok(Int::modulo(a.width(), i128::from(a.bits() ^ b.bits())))
}
