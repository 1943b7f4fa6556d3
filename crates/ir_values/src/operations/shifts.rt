//! Shifts.
ghost use Rattle.std.specs.Prelude.{◌≡◌, ◌<◌, ◌≤◌, ◌^◌, ◌%◌, ◌==◌, not, pos, ◌*ℤ◌, Ok, Err, if◌then◌else◌};
ghost use Rattle.std.specs.Int.{int_div_euclid};
ghost use Rattle.std.specs.Int.RustNames.{unsigned_abs};
ghost use Rattle.ir_values.specs.Arithmetic as spec;
ghost use Rattle.ir_values.specs.Int.{signed};
ghost use Rattle.ir_values.specs.declared.cause.Cause.TheVariants.{Poison};
ghost use Rattle.ir_values.specs.declared.int.BinOp.TheVariants as op;

use super::arithmetic::{fits_unsigned, product, wrapped};
use crate::cause::Cause;
use crate::int::{Flags, Int};

#[tactic(auto, unfolding(crate::specs::Arithmetic::binary_of))]
pub(super) fn shl(flags: Flags, a: Int, b: Int) -> Result<Int, Cause>
    ensures { result ≡ spec.binary_of op.Shl flags a b }
{
    if u64::from(a.width().bits()) <= b.bits() {
        return Err(Cause::Poison);
    }
    multiplied(flags, a, b)
}

/// The result of a shift to the left by fewer bits than the width.
fn multiplied(flags: Flags, a: Int, b: Int) -> Result<Int, Cause>
    requires { b.bits < 64 }
    ensures { result ≡ (if spec.breaks op.Shl flags a b then Err Poison else Ok (spec.modulo a.width (spec.exact_by signed op.Shl a b))) }
{
    let fits = fits_unsigned(a.width(), shifted_left(a.unsigned_value(), b.bits()));
    wrapped(
        flags,
        a.width(),
        fits,
        shifted_left(a.signed_value(), b.bits()),
    )
}

#[tactic(auto, unfolding(crate::specs::Arithmetic::binary_of))]
pub(super) fn lshr(flags: Flags, a: Int, b: Int) -> Result<Int, Cause>
    ensures { result ≡ spec.binary_of op.LShr flags a b }
{
    if b.bits() >= u64::from(a.width().bits()) {
        return Err(Cause::Poison);
    }
    if flags.exact && loses(a.bits(), b.bits()) {
        return Err(Cause::Poison);
    }
    Ok(Int::modulo(a.width(), shifted_right(a.unsigned_value(), b.bits())))
}

#[tactic(auto, unfolding(crate::specs::Arithmetic::binary_of))]
pub(super) fn ashr(flags: Flags, a: Int, b: Int) -> Result<Int, Cause>
    ensures { result ≡ spec.binary_of op.AShr flags a b }
{
    if b.bits() >= u64::from(a.width().bits()) {
        return Err(Cause::Poison);
    }
    if flags.exact && loses(a.bits(), b.bits()) {
        return Err(Cause::Poison);
    }
    Ok(Int::modulo(a.width(), shifted_right(a.signed_value(), b.bits())))
}

/// The value times 2 to the `count`.
fn shifted_left(value: i128, count: u64) -> i128
    requires value { unsigned_abs value < 2 ^ 64 }
    requires count { count < 64 }
    ensures { result ≡ value *ℤ pos (2 ^ count) }
{
    product(value, i128::from(1u64 << count))
}

/// The value divided by 2 to the `count` and rounded down.
fn shifted_right(value: i128, count: u64) -> i128
    requires { count < 64 }
    ensures { result ≡ int_div_euclid value (pos (2 ^ count)) }
{
    value.div_euclid(i128::from(1u64 << count))
}

/// Whether one of the `count` lowest bits is set.
fn loses(bits: u64, count: u64) -> bool
    requires { count < 64 }
    ensures { result ≡ not (bits % 2 ^ count == 0) }
{
    bits % (1 << count) != 0
}
