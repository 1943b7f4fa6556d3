//! Choices of two values (LLVM Language Reference, 'select Instruction').
ghost use Rattle.std.specs.Prelude.{◌≡◌, IfOk};
ghost use Rattle.static_steps.specs.Integers as spec;
ghost use Rattle.step_parts.specs.code.Scenes.{at};

use crate::values::{is_bit, is_number, same_known};
use ir_values::{Copies, LocalId, Memory, Ty, Value, Width};
use kept_items::{Dyn, Item, Kind, Val};
use static_steps::Turn;
use step_parts::Scene;

fn select_known(
    s: &Scene<'_>,
    x: Option<LocalId>,
    condition: &Value,
    a: &Val,
    b: &Val,
) -> Result<Turn, Memory>
    ensures { IfOk result (λ turn. turn ≡ spec.select_known (at s.now) x condition.now a.now b.now) }
{
    match condition {
        Value::Int(i) => {
            let chosen = if i.bits() == 1 { a } else { b };
            s.goes(s.bound(x, chosen.copy(s.alloc)?)?)
        }
        _ => Ok(Turn::Lost),
    }
}

fn select_ints(
    s: &Scene<'_>,
    x: Option<LocalId>,
    width: Width,
    d: Dyn,
    a: &Val,
    b: &Val,
) -> Result<Turn, Memory>
    ensures { IfOk result (λ turn. turn ≡ spec.select_ints (at s.now) x width d a.now b.now) }
{
    if is_number(a) && is_number(b) {
        let permitted = s.target.has_ints() || is_bit(width);
        let a = a.copy(s.alloc)?;
        let b = b.copy(s.alloc)?;
        s.kept_if(
            x,
            permitted,
            Item::Select(s.fresh, width, Val::Dynamic(d), a, b),
        )
    } else {
        Ok(Turn::Lost)
    }
}

fn select_kept(
    s: &Scene<'_>,
    x: Option<LocalId>,
    ty: &Ty,
    d: Dyn,
    a: &Val,
    b: &Val,
) -> Result<Turn, Memory>
    ensures { IfOk result (λ turn. turn ≡ spec.select_kept (at s.now) x ty.now d a.now b.now) }
{
    match ty {
        Ty::Int(width) => select_ints(s, x, *width, d, a, b),
        Ty::Qubit | Ty::Res => Ok(Turn::Bad(Kind::Handle)),
        Ty::Func(_) => Ok(Turn::Bad(Kind::Target)),
        _ => Ok(Turn::Bad(Kind::Token)),
    }
}

fn select_dynamic(
    s: &Scene<'_>,
    x: Option<LocalId>,
    ty: &Ty,
    d: Dyn,
    a: &Val,
    b: &Val,
) -> Result<Turn, Memory>
    ensures { IfOk result (λ turn. turn ≡ spec.select_dynamic (at s.now) x ty.now d a.now b.now) }
{
    if same_known(a, b) {
        s.goes(s.bound(x, a.copy(s.alloc)?)?)
    } else {
        select_kept(s, x, ty, d, a, b)
    }
}

/// The first value or the second, of this type, by the condition.
pub fn select(
    s: &Scene<'_>,
    x: Option<LocalId>,
    ty: &Ty,
    condition: &Val,
    a: &Val,
    b: &Val,
) -> Result<Turn, Memory>
    ensures { IfOk result (λ turn. turn ≡ spec.select_turn (at s.now) x ty.now condition.now a.now b.now) }
{
    match condition {
        Val::Known(v) => select_known(s, x, v, a, b),
        Val::Dynamic(d) => select_dynamic(s, x, ty, *d, a, b),
    }
}
