//! Conversions of integers (LLVM Language Reference, 'Conversion Operations').
ghost use Rattle.std.specs.Prelude.{◌≡◌, IfOk};
ghost use Rattle.static_steps.specs.Integers as spec;
ghost use Rattle.step_parts.specs.code.Scenes.{at};

use ir_values::{Conv, Int, LocalId, Memory, Value, Width};
use kept_items::{Item, Val};
use static_steps::Turn;
use step_parts::Scene;

fn convert_of_int(
    s: &Scene<'_>,
    x: Option<LocalId>,
    conversion: Conv,
    i: Int,
    to: Width,
) -> Result<Turn, Memory>
    ensures { IfOk result (λ turn. turn ≡ spec.convert_int (at s.now) x conversion i to) }
{
    if conversion.leads(i.width(), to) {
        s.gives_known(x, Value::Int(ir_values::convert(conversion, i, to)))
    } else {
        Ok(Turn::Lost)
    }
}

fn convert_of_known(
    s: &Scene<'_>,
    x: Option<LocalId>,
    conversion: Conv,
    a: &Value,
    to: Width,
) -> Result<Turn, Memory>
    ensures { IfOk result (λ turn. turn ≡ spec.convert_known (at s.now) x conversion a.now to) }
{
    match a {
        Value::Int(i) => convert_of_int(s, x, conversion, *i, to),
        _ => Ok(Turn::Lost),
    }
}

/// A conversion of this value of the first width to the second: it is folded where the value is known.
pub fn convert(
    s: &Scene<'_>,
    x: Option<LocalId>,
    conversion: Conv,
    width: Width,
    a: &Val,
    to: Width,
) -> Result<Turn, Memory>
    ensures { IfOk result (λ turn. turn ≡ spec.convert_turn (at s.now) x conversion width a.now to) }
{
    match a {
        Val::Known(v) => convert_of_known(s, x, conversion, v, to),
        Val::Dynamic(d) => {
            let item = Item::Convert(s.fresh, conversion, width, Val::Dynamic(*d), to);
            s.kept_if(x, s.target.has_ints(), item)
        }
    }
}
