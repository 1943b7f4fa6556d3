//! Output records (QIR specification, 'Output Recording').
ghost use Rattle.std.specs.Prelude.{◌≡◌, if◌then◌else◌, map, IfOk};
ghost use Rattle.kept_items.specs.Targets.{is_base};
ghost use Rattle.static_steps.specs.Operations.{typed_args};
ghost use Rattle.static_steps.specs.Records as spec;
ghost use Rattle.step_parts.specs.code.Scenes.{at};

use ir_module::Operand;
use ir_values::{Class, Memory, Ty, Value};
use kept_items::{Item, Kind, Val};
use static_steps::{Phase, Turn};
use step_parts::{Scene, typed_args};

fn output(s: &Scene<'_>, class: Class, args: &[(Ty, Operand)], vals: &[Val]) -> Result<Turn, Memory>
    ensures { IfOk result (λ turn. turn ≡ spec.outputs (at s.now) class (typed_args (map (λ a. a.0) args.now) vals.now)) }
{
    match typed_args(s.alloc, args, vals)? {
        Some(args) => {
            let phase = phase_of(s);
            s.kept(Item::Output(class, args), s.passed()?.with_phase(phase))
        }
        None => Ok(Turn::Lost),
    }
}

/// The phase after a record.
fn phase_of(s: &Scene<'_>) -> Phase
    ensures { result ≡ (if is_base s.now.target then Phase.Output else s.now.given.now.phase) }
{
    if s.target.is_base() {
        Phase::Output
    } else {
        s.given.phase
    }
}

/// A record of a tuple or an array, whose number is known.
pub fn count_output(
    s: &Scene<'_>,
    class: Class,
    args: &[(Ty, Operand)],
    vals: &[Val],
) -> Result<Turn, Memory>
    ensures { IfOk result (λ turn. turn ≡ spec.count_output (at s.now) class (map (λ a. a.0) args.now) vals.now) }
{
    match vals {
        [Val::Dynamic(_), ..] => Ok(Turn::Bad(Kind::Forbidden)),
        _ => output(s, class, args, vals),
    }
}

/// A record of a result, which is no constant.
pub fn result_output(s: &Scene<'_>, args: &[(Ty, Operand)], vals: &[Val]) -> Result<Turn, Memory>
    ensures { IfOk result (λ turn. turn ≡ spec.result_output (at s.now) (map (λ a. a.0) args.now) vals.now) }
{
    match vals {
        [Val::Known(Value::One | Value::Zero), ..] => Ok(Turn::Bad(Kind::Forbidden)),
        _ => output(s, Class::ResRecord, args, vals),
    }
}

/// A record of a boolean or a double.
pub fn value_output(
    s: &Scene<'_>,
    class: Class,
    args: &[(Ty, Operand)],
    vals: &[Val],
) -> Result<Turn, Memory>
    ensures { IfOk result (λ turn. turn ≡ spec.value_output (at s.now) class (map (λ a. a.0) args.now) vals.now) }
{
    if s.target.is_base() {
        Ok(Turn::Bad(Kind::Forbidden))
    } else {
        output(s, class, args, vals)
    }
}

/// A record of an integer.
pub fn int_output(s: &Scene<'_>, args: &[(Ty, Operand)], vals: &[Val]) -> Result<Turn, Memory>
    ensures { IfOk result (λ turn. turn ≡ spec.int_output (at s.now) (map (λ a. a.0) args.now) vals.now) }
{
    if s.target.is_base() {
        Ok(Turn::Bad(Kind::Forbidden))
    } else if s.target.has_ints() {
        output(s, Class::IntRecord, args, vals)
    } else {
        Ok(Turn::Bad(Kind::Capability))
    }
}
