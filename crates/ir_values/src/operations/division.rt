//! Quotients and remainders.
ghost use Rattle.std.specs.Prelude.{◌≡◌, ◌<◌, ◌&&◌, ◌==◌, not, int_div, int_rem};
ghost use Rattle.std.specs.Int.RustNames.{unsigned_abs};
ghost use Rattle.ir_values.specs.Int.{signed};
ghost use Rattle.ir_values.specs.Arithmetic as spec;
ghost use Rattle.ir_values.specs.declared.int.BinOp.TheVariants as op;

use crate::cause::Cause;
use crate::int::{Flags, Int};

#[tactic(auto, unfolding(crate::specs::Arithmetic::binary_of))]
pub(super) fn udiv(flags: Flags, a: Int, b: Int) -> Result<Int, Cause>
    ensures { result ≡ spec.binary_of op.UDiv flags a b }
{
    if b.bits() == 0 {
        return Err(Cause::DivZero);
    }
    if flags.exact && a.bits() % b.bits() != 0 {
        return Err(Cause::Poison);
    }
    Ok(Int::modulo(a.width(), i128::from(a.bits() / b.bits())))
}

#[tactic(auto, unfolding(crate::specs::Arithmetic::binary_of))]
pub(super) fn sdiv(flags: Flags, a: Int, b: Int) -> Result<Int, Cause>
    ensures { result ≡ spec.binary_of op.SDiv flags a b }
{
    if b.bits() == 0 {
        return Err(Cause::DivZero);
    }
    if overflows(a, b) {
        return Err(Cause::Overflow);
    }
    if flags.exact && remains(a, b) {
        return Err(Cause::Poison);
    }
    Ok(Int::modulo(a.width(), quotient(a, b)))
}

#[tactic(auto, unfolding(crate::specs::Arithmetic::binary_of))]
pub(super) fn urem(flags: Flags, a: Int, b: Int) -> Result<Int, Cause>
    ensures { result ≡ spec.binary_of op.URem flags a b }
{
    if b.bits() == 0 {
        return Err(Cause::DivZero);
    }
    Ok(Int::modulo(a.width(), i128::from(a.bits() % b.bits())))
}

#[tactic(auto, unfolding(crate::specs::Arithmetic::binary_of))]
pub(super) fn srem(flags: Flags, a: Int, b: Int) -> Result<Int, Cause>
    ensures { result ≡ spec.binary_of op.SRem flags a b }
{
    if b.bits() == 0 {
        return Err(Cause::DivZero);
    }
    if overflows(a, b) {
        return Err(Cause::Overflow);
    }
    Ok(Int::modulo(a.width(), remainder(a, b)))
}

/// Whether the least value is divided by -1.
fn overflows(a: Int, b: Int) -> bool
    ensures { result ≡ (spec.is_least a && spec.is_minus_one b) }
{
    a.bits() == a.width().sign_bit() && b.bits() == b.width().mask()
}

/// The quotient of the signed values, rounded toward zero.
fn quotient(a: Int, b: Int) -> i128
    requires { 0 < b.bits }
    ensures { result ≡ int_div (signed a) (signed b) }
{
    a.signed_value() / b.signed_value()
}

/// The remainder of that quotient, which has the sign of the dividend.
fn remainder(a: Int, b: Int) -> i128
    requires { 0 < b.bits }
    ensures { result ≡ int_rem (signed a) (signed b) }
{
    a.signed_value() % b.signed_value()
}

/// Whether that remainder isn't zero.
fn remains(a: Int, b: Int) -> bool
    requires { 0 < b.bits }
    ensures { result ≡ not (unsigned_abs (int_rem (signed a) (signed b)) == 0) }
{
    remainder(a, b).unsigned_abs() != 0
}
