//! Results that are read, and their comparison (QIR specification, 'Runtime Functions').
ghost use Rattle.std.specs.Prelude.{◌≡◌, None, IfOk};
ghost use Rattle.static_steps.specs.Results as spec;
ghost use Rattle.step_parts.specs.code.Scenes.{at};

use crate::values::bit_int;
use ir_values::{Copies, LocalId, Memory, Value};
use kept_items::{Item, Kind, Val};
use static_steps::Turn;
use step_parts::Scene;

/// The bit of a constant result.
fn const_bit(v: &Value) -> Option<bool>
    ensures { result ≡ spec.const_bit v.now }
{
    match v {
        Value::One => Some(true),
        Value::Zero => Some(false),
        _ => None,
    }
}

/// Whether two constant results are equal.
fn both_bits(a: Option<bool>, b: Option<bool>) -> Option<bool>
    ensures { result ≡ spec.both_bits a b }
{
    match (a, b) {
        (Some(a), Some(b)) => Some(a == b),
        _ => None,
    }
}

/// A bit that is known, or an item that gives it.
fn by_const(
    s: &Scene<'_>,
    x: Option<LocalId>,
    bit: Option<bool>,
    item: Item,
) -> Result<Turn, Memory>
    ensures { IfOk result (λ turn. turn ≡ spec.by_const (at s.now) x bit item) }
{
    match bit {
        Some(bit) => s.gives_known(x, Value::Int(bit_int(bit))),
        None => read_of(s, x, item),
    }
}

fn read_of(s: &Scene<'_>, x: Option<LocalId>, item: Item) -> Result<Turn, Memory>
    ensures { IfOk result (λ turn. turn ≡ spec.by_const (at s.now) x None item) }
{
    if s.target.is_base() {
        Ok(Turn::Bad(Kind::Forbidden))
    } else {
        s.gives_dynamic(x, item)
    }
}

/// The bit of a result.
pub fn read(s: &Scene<'_>, x: Option<LocalId>, vals: &[Val]) -> Result<Turn, Memory>
    ensures { IfOk result (λ turn. turn ≡ spec.read_turn (at s.now) x vals.now) }
{
    match vals {
        [Val::Known(v)] => by_const(s, x, const_bit(v), Item::Read(s.fresh, v.copy(s.alloc)?)),
        _ => Ok(Turn::Lost),
    }
}

/// Whether two results have equal bits.
pub fn equal(s: &Scene<'_>, x: Option<LocalId>, vals: &[Val]) -> Result<Turn, Memory>
    ensures { IfOk result (λ turn. turn ≡ spec.equal_turn (at s.now) x vals.now) }
{
    match vals {
        [Val::Known(v), Val::Known(u)] => {
            let item = Item::Equal(s.fresh, v.copy(s.alloc)?, u.copy(s.alloc)?);
            by_const(s, x, both_bits(const_bit(v), const_bit(u)), item)
        }
        _ => Ok(Turn::Lost),
    }
}
