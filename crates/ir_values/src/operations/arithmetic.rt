//! Sums, differences and products, and the flags on results that may wrap.
ghost use Rattle.std.specs.Prelude.{◌≡◌, ◌<◌, ◌≤◌, ◌^◌, ◌&&◌, ◌||◌, not, Ok, Err, if◌then◌else◌, pos, ◌+ℤ◌, ◌-ℤ◌, ◌*ℤ◌};
ghost use Rattle.std.specs.Int.RustNames.{unsigned_abs};
ghost use Rattle.ir_values.specs.Arithmetic as spec;
ghost use Rattle.ir_values.specs.declared.int.BinOp.TheVariants as op;
ghost use Rattle.ir_values.specs.declared.cause.Cause.TheVariants.{Poison};

use crate::cause::Cause;
use crate::int::{Flags, Int, Width};

#[tactic(auto, unfolding(crate::specs::Arithmetic::binary_of))]
pub(super) fn add(flags: Flags, a: Int, b: Int) -> Result<Int, Cause>
    ensures { result ≡ spec.binary_of op.Add flags a b }
{
    let fits = fits_unsigned(a.width(), sum(a.unsigned_value(), b.unsigned_value()));
    wrapped(
        flags,
        a.width(),
        fits,
        sum(a.signed_value(), b.signed_value()),
    )
}

#[tactic(auto, unfolding(crate::specs::Arithmetic::binary_of))]
pub(super) fn sub(flags: Flags, a: Int, b: Int) -> Result<Int, Cause>
    ensures { result ≡ spec.binary_of op.Sub flags a b }
{
    let fits = fits_unsigned(
        a.width(),
        difference(a.unsigned_value(), b.unsigned_value()),
    );
    wrapped(
        flags,
        a.width(),
        fits,
        difference(a.signed_value(), b.signed_value()),
    )
}

#[tactic(auto, unfolding(crate::specs::Arithmetic::binary_of))]
pub(super) fn mul(flags: Flags, a: Int, b: Int) -> Result<Int, Cause>
    ensures { result ≡ spec.binary_of op.Mul flags a b }
{
    wrapped(
        flags,
        a.width(),
        product_fits(a, b),
        product(a.signed_value(), b.signed_value()),
    )
}

/// A result that may wrap, from whether the exact unsigned result fits and the exact signed result.
pub(super) fn wrapped(flags: Flags, width: Width, fits: bool, signed: i128) -> Result<Int, Cause>
    ensures { result ≡ (if (flags.nuw && not fits) || (flags.nsw && not (spec.fits_signed width signed)) then Err Poison else Ok (spec.modulo width signed)) }
{
    if flags.nuw && !fits || flags.nsw && !fits_signed(width, signed) {
        Err(Cause::Poison)
    } else {
        Ok(Int::modulo(width, signed))
    }
}

pub(super) fn fits_unsigned(width: Width, value: i128) -> bool
    ensures { result ≡ spec.fits_unsigned width value }
{
    0 <= value && value <= i128::from(width.mask())
}

pub(super) fn fits_signed(width: Width, value: i128) -> bool
    ensures { result ≡ spec.fits_signed width value }
{
    let half = i128::from(width.sign_bit());
    -half <= value && value < half
}

/// The sum of two values of 64 bits.
fn sum(x: i128, y: i128) -> i128
    requires x { unsigned_abs x ≤ 2 ^ 64 }
    requires y { unsigned_abs y ≤ 2 ^ 64 }
    ensures { result ≡ x +ℤ y }
{
    x + y
}

/// The difference of two values of 64 bits.
fn difference(x: i128, y: i128) -> i128
    requires x { unsigned_abs x ≤ 2 ^ 64 }
    requires y { unsigned_abs y ≤ 2 ^ 64 }
    ensures { result ≡ x -ℤ y }
{
    x - y
}

/// The product of a value of 64 bits and one of at most 2 to the 63.
pub(super) fn product(x: i128, y: i128) -> i128
    requires x { unsigned_abs x < 2 ^ 64 }
    requires y { unsigned_abs y ≤ 2 ^ 63 }
    ensures { result ≡ x *ℤ y }
{
    x * y
}

/// Whether the product of the unsigned values fits the width of the first.
fn product_fits(a: Int, b: Int) -> bool
    ensures { result ≡ spec.fits_unsigned a.width (pos a.bits *ℤ pos b.bits) }
{
    u128::from(a.bits()) * u128::from(b.bits()) <= u128::from(a.width().mask())
}
