//! Calls of declared functions, by their classes.
ghost use Rattle.std.specs.Prelude.{◌≡◌, map, IfOk};
ghost use Rattle.static_steps.specs.Calls as spec;
ghost use Rattle.static_steps.specs.Settings.{silent};
ghost use Rattle.step_parts.specs.code.Scenes.{at};

use control_steps::{allocate, pass, release};
use instruction_steps::{
    count_output, equal, gate, int_output, measure, measure_returning, read, result_output,
    value_output,
};
use ir_module::{Function, Operand};
use ir_values::{Class, LocalId, Memory, Ty, Value};
use kept_items::Val;
use static_steps::Turn;
use step_parts::Scene;

/// A call that gives nothing, of a declared function of this name and class.
fn silent_call(
    s: &Scene<'_>,
    f: &Function,
    name: &[u8],
    class: Class,
    args: &[(Ty, Operand)],
    vals: &[Val],
) -> Result<Turn, Memory>
    ensures { IfOk result (λ turn. turn ≡ spec.silent_turn (at s.now) f.now name.now class (map (λ a. a.0) args.now) vals.now) }
{
    match class {
        Class::Release => release(s, vals),
        Class::Gate => gate(s, f, name, args, vals),
        Class::Measure => measure(s, name, args, vals),
        Class::Tuple | Class::Array => count_output(s, class, args, vals),
        Class::ResRecord => result_output(s, args, vals),
        Class::BoolRecord | Class::DoubleRecord => value_output(s, class, args, vals),
        Class::IntRecord => int_output(s, args, vals),
        _ => pass(s),
    }
}

fn unnamed_call(
    s: &Scene<'_>,
    x: Option<LocalId>,
    f: &Function,
    name: &[u8],
    class: Class,
    args: &[(Ty, Operand)],
    vals: &[Val],
) -> Result<Turn, Memory>
    ensures { IfOk result (λ turn. turn ≡ silent x (spec.silent_turn (at s.now) f.now name.now class (map (λ a. a.0) args.now) vals.now)) }
{
    match x {
        Some(_) => Ok(Turn::Lost),
        None => silent_call(s, f, name, class, args, vals),
    }
}

/// The call of a declared function of this name and class.
pub(crate) fn class_call(
    s: &Scene<'_>,
    x: Option<LocalId>,
    f: &Function,
    name: &[u8],
    class: Class,
    args: &[(Ty, Operand)],
    vals: &[Val],
) -> Result<Turn, Memory>
    ensures { IfOk result (λ turn. turn ≡ spec.class_turn (at s.now) x f.now name.now class (map (λ a. a.0) args.now) vals.now) }
{
    match class {
        Class::Alloc => allocate(s, x),
        Class::One => s.gives_known(x, Value::One),
        Class::Zero => s.gives_known(x, Value::Zero),
        Class::Read => read(s, x, vals),
        Class::Equal => equal(s, x, vals),
        Class::Returning => measure_returning(s, x, args, vals),
        _ => unnamed_call(s, x, f, name, class, args, vals),
    }
}
