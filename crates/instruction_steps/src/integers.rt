//! Binary instructions and comparisons of integers (LLVM Language Reference, 'Binary Operations', 'Bitwise
//! Binary Operations', 'icmp Instruction').
ghost use Rattle.std.specs.Prelude.{◌≡◌, IfOk};
ghost use Rattle.static_steps.specs.Integers as spec;
ghost use Rattle.step_parts.specs.code.Scenes.{at};

use crate::values::{bit_int, is_bit, is_bitwise, same_width};
use ir_values::{BinOp, Cause, Copies, Flags, Int, LocalId, Memory, Pred, Value, Width, compare};
use kept_items::{Item, Kind, Val};
use static_steps::Turn;
use step_parts::Scene;

fn folded(s: &Scene<'_>, x: Option<LocalId>, answer: Result<Int, Cause>) -> Result<Turn, Memory>
    ensures { IfOk result (λ turn. turn ≡ spec.folded (at s.now) x answer) }
{
    match answer {
        Ok(i) => s.gives_known(x, Value::Int(i)),
        Err(why) => Ok(Turn::Bad(Kind::Traps(why))),
    }
}

#[tactic(auto, using(crate::proofs::Widths::same_widths))]
fn binary_of_ints(
    s: &Scene<'_>,
    x: Option<LocalId>,
    op: BinOp,
    flags: Flags,
    i: Int,
    j: Int,
) -> Result<Turn, Memory>
    ensures { IfOk result (λ turn. turn ≡ spec.binary_ints (at s.now) x op flags i j) }
{
    if same_width(i, j) && op.allows(flags) {
        folded(s, x, ir_values::binary(op, flags, i, j))
    } else {
        Ok(Turn::Lost)
    }
}

fn binary_of_known(
    s: &Scene<'_>,
    x: Option<LocalId>,
    op: BinOp,
    flags: Flags,
    a: &Value,
    b: &Value,
) -> Result<Turn, Memory>
    ensures { IfOk result (λ turn. turn ≡ spec.binary_known (at s.now) x op flags a.now b.now) }
{
    match (a, b) {
        (Value::Int(i), Value::Int(j)) => binary_of_ints(s, x, op, flags, *i, *j),
        _ => Ok(Turn::Lost),
    }
}

fn binary_kept(
    s: &Scene<'_>,
    x: Option<LocalId>,
    op: BinOp,
    flags: Flags,
    width: Width,
    a: &Val,
    b: &Val,
) -> Result<Turn, Memory>
    ensures { IfOk result (λ turn. turn ≡ spec.binary_kept (at s.now) x op flags width a.now b.now) }
{
    let permitted = s.target.has_ints() || (is_bit(width) && is_bitwise(op));
    let a = a.copy(s.alloc)?;
    let b = b.copy(s.alloc)?;
    s.kept_if(x, permitted, Item::Binary(s.fresh, op, flags, width, a, b))
}

/// A binary instruction on these values of this width: it is folded where both are known.
pub fn binary(
    s: &Scene<'_>,
    x: Option<LocalId>,
    op: BinOp,
    flags: Flags,
    width: Width,
    a: &Val,
    b: &Val,
) -> Result<Turn, Memory>
    ensures { IfOk result (λ turn. turn ≡ spec.binary_turn (at s.now) x op flags width a.now b.now) }
{
    match (a, b) {
        (Val::Known(v), Val::Known(u)) => binary_of_known(s, x, op, flags, v, u),
        _ => binary_kept(s, x, op, flags, width, a, b),
    }
}

#[tactic(auto, using(crate::proofs::Widths::same_widths))]
fn icmp_of_ints(s: &Scene<'_>, x: Option<LocalId>, p: Pred, i: Int, j: Int) -> Result<Turn, Memory>
    ensures { IfOk result (λ turn. turn ≡ spec.icmp_ints (at s.now) x p i j) }
{
    if same_width(i, j) {
        s.gives_known(x, Value::Int(bit_int(compare(p, i, j))))
    } else {
        Ok(Turn::Lost)
    }
}

fn icmp_of_known(
    s: &Scene<'_>,
    x: Option<LocalId>,
    p: Pred,
    a: &Value,
    b: &Value,
) -> Result<Turn, Memory>
    ensures { IfOk result (λ turn. turn ≡ spec.icmp_known (at s.now) x p a.now b.now) }
{
    match (a, b) {
        (Value::Int(i), Value::Int(j)) => icmp_of_ints(s, x, p, *i, *j),
        _ => Ok(Turn::Lost),
    }
}

fn icmp_kept(
    s: &Scene<'_>,
    x: Option<LocalId>,
    p: Pred,
    width: Width,
    a: &Val,
    b: &Val,
) -> Result<Turn, Memory>
    ensures { IfOk result (λ turn. turn ≡ spec.icmp_kept (at s.now) x p width a.now b.now) }
{
    let permitted = s.target.has_ints() || is_bit(width);
    let a = a.copy(s.alloc)?;
    let b = b.copy(s.alloc)?;
    s.kept_if(x, permitted, Item::Icmp(s.fresh, p, width, a, b))
}

/// A comparison of these values of this width: it is folded where both are known.
pub fn icmp(
    s: &Scene<'_>,
    x: Option<LocalId>,
    p: Pred,
    width: Width,
    a: &Val,
    b: &Val,
) -> Result<Turn, Memory>
    ensures { IfOk result (λ turn. turn ≡ spec.icmp_turn (at s.now) x p width a.now b.now) }
{
    match (a, b) {
        (Val::Known(v), Val::Known(u)) => icmp_of_known(s, x, p, v, u),
        _ => icmp_kept(s, x, p, width, a, b),
    }
}
