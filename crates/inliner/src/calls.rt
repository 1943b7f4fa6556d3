//! Calls.
ghost use Rattle.std.specs.Prelude.{◌≡◌, Some, map, slice_get, IfOk};
ghost use Rattle.inliner.specs.code.Instructions as code;
ghost use Rattle.ir_module.specs.Classes.{class_of_function};
ghost use Rattle.ir_module.specs.Operands.{callee_operand};
ghost use Rattle.static_steps.specs.Calls as spec;
ghost use Rattle.static_steps.specs.Values as vals;
ghost use Rattle.step_parts.specs.code.Scenes.{at};

use crate::declared::class_call;
use control_steps::enter;
use ir_module::{CallArgs, Callee, Function, InstKind, Operand};
use ir_values::{Cause, FuncId, LocalId, Memory, Ty, Value};
use kept_items::{Kind, Val};
use static_steps::Turn;
use step_parts::Scene;

fn call_declared(
    s: &Scene<'_>,
    x: Option<LocalId>,
    g: FuncId,
    f: &Function,
    args: &[(Ty, Operand)],
    vals: &[Val],
) -> Result<Turn, Memory>
    requires { slice_get s.now.module.now.funcs g.0 ≡ Some f.now }
    ensures { IfOk result (λ turn. turn ≡ spec.declared_turn (at s.now) x f.now (class_of_function f.now) (map (λ a. a.0) args.now) vals.now) }
{
    match s.class_of(g, f) {
        Some(class) => class_call(s, x, f, f.name.text(), class, args, vals),
        None => Ok(Turn::Lost),
    }
}

fn call_found(
    s: &Scene<'_>,
    x: Option<LocalId>,
    g: FuncId,
    f: &Function,
    args: &[(Ty, Operand)],
    vals: &[Val],
) -> Result<Turn, Memory>
    requires { slice_get s.now.module.now.funcs g.0 ≡ Some f.now }
    ensures { IfOk result (λ turn. turn ≡ spec.calls_turn (at s.now) x g (Some f.now) (map (λ a. a.0) args.now) vals.now) }
{
    match &f.blocks {
        Some(_) => enter(s, x, g, vals),
        None => call_declared(s, x, g, f, args, vals),
    }
}

fn call_function(
    s: &Scene<'_>,
    x: Option<LocalId>,
    g: FuncId,
    args: &[(Ty, Operand)],
    vals: &[Val],
) -> Result<Turn, Memory>
    ensures { IfOk result (λ turn. turn ≡ spec.calls_turn (at s.now) x g (slice_get s.now.module.now.funcs g.0)
        (map (λ a. a.0) args.now) vals.now) }
{
    match s.module.funcs.as_slice().get(g.0 as usize) {
        Some(f) => call_found(s, x, g, f, args, vals),
        None => Ok(Turn::Lost),
    }
}

fn call_value(
    s: &Scene<'_>,
    x: Option<LocalId>,
    callee: &Val,
    args: &[(Ty, Operand)],
    vals: &[Val],
) -> Result<Turn, Memory>
    ensures { IfOk result (λ turn. turn ≡ code.call_of (at s.now) x callee.now (map (λ a. a.0) args.now) vals.now) }
{
    match callee {
        Val::Known(Value::Func(g)) => call_function(s, x, *g, args, vals),
        _ => Ok(Turn::Lost),
    }
}

fn callee_of(s: &Scene<'_>, callee: &Callee) -> Result<Option<Val>, Memory>
    ensures { IfOk result (λ o. o ≡ vals.val_of (at s.now).w.top.names (callee_operand callee.now)) }
{
    match callee {
        Callee::Func(f) => Ok(Some(Val::Known(Value::Func(*f)))),
        Callee::Local(x) => s.look(*x),
    }
}

/// A call.
#[tactic(auto, using(crate::proofs::Called::call_is, crate::proofs::Called::no_callee, crate::proofs::Called::no_argument))]
pub(crate) fn call(
    s: &Scene<'_>,
    x: Option<LocalId>,
    ret: &Ty,
    callee: &Callee,
    args: &CallArgs,
) -> Result<Turn, Memory>
    ensures { IfOk result (λ turn. turn ≡ code.inst_of (at s.now) x (InstKind.Call ret.now callee.now args.now)) }
{
    match (callee_of(s, callee)?, s.arg_vals(args.as_slice())?) {
        (Some(f), Some(vals)) => call_value(s, x, &f, args.as_slice(), vals.as_slice()),
        _ => Ok(Turn::Bad(Kind::Traps(Cause::Unbound))),
    }
}
