//! Questions on values, widths and operations.
ghost use Rattle.std.specs.Prelude.{◌≡◌};
ghost use Rattle.ir_values.specs.Values.{is_bit, is_bitwise, same_width};
ghost use Rattle.kept_items.specs.Items.{bit_int};
ghost use Rattle.static_steps.specs.Integers.{is_number};
ghost use Rattle.static_steps.specs.Values.{same_known};

use ir_values::{BinOp, Exact, Int, Value, Width};
use kept_items::Val;

/// Whether the operation works on each bit by itself.
pub(crate) fn is_bitwise(op: BinOp) -> bool
    ensures { result ≡ is_bitwise op }
{
    match op {
        BinOp::And | BinOp::Or | BinOp::Xor => true,
        _ => false,
    }
}

/// Whether it is the width of a bit.
pub(crate) fn is_bit(width: Width) -> bool
    ensures { result ≡ is_bit width }
{
    match width {
        Width::W1 => true,
        _ => false,
    }
}

pub(crate) fn same_width(i: Int, j: Int) -> bool
    ensures { result ≡ same_width i.width j.width }
{
    i.width().bits() == j.width().bits()
}

/// Whether it is an integer, known or Dynamic.
pub(crate) fn is_number(a: &Val) -> bool
    ensures { result ≡ is_number a.now }
{
    match a {
        Val::Known(Value::Int(_)) | Val::Dynamic(_) => true,
        Val::Known(_) => false,
    }
}

/// A bit as an integer.
pub(crate) fn bit_int(bit: bool) -> Int
    ensures { result ≡ bit_int bit }
{
    match Int::new(Width::W1, u64::from(bit)) {
        Some(i) => i,
        None => unreachable!(),
    }
}

/// Whether both are known, and equal.
#[tactic(auto, using(crate::proofs::Widths::told))]
pub(crate) fn same_known(a: &Val, b: &Val) -> bool
    ensures { result ≡ same_known a.now b.now }
{
    match (a, b) {
        (Val::Known(v), Val::Known(u)) => v.same(u),
        _ => false,
    }
}
