//! Quantum operations (QIR specification, 'Quantum Instruction Set').
ghost use Rattle.std.specs.Prelude.{◌≡◌, ◌++◌, codes, map, true, false, Some, IfOk};
ghost use Rattle.ir_values.specs.Calls.{qis};
ghost use Rattle.static_steps.specs.Operations as spec;
ghost use Rattle.step_parts.specs.code.Scenes.{at};

use ir_module::{Function, Operand};
use ir_values::{Bytes, Cause, Class, Copies, LocalId, Memory, Ty, Value};
use kept_items::{Item, Kind, TypedVals, Val};
use static_steps::{Phase, Turn};
use std::alloc::Global;
use step_parts::{Scene, typed_args};

/// The operation as which a measurement that returns a result is issued.
fn measurement(alloc: Global) -> Result<Bytes, Memory>
    ensures { IfOk result (λ name. name ≡ qis (codes "mz__body")) }
{
    Bytes::from_slice(alloc, b"__quantum__qis__mz__body")
}

/// Why an operation may not be issued with this argument.
fn wrong_arg(s: &Scene<'_>, ty: &Ty, v: &Val) -> Option<Cause>
    ensures { result ≡ spec.wrong_arg s.now.given.now.held ty.now v.now }
{
    match (ty, v) {
        (Ty::Qubit, Val::Known(Value::Alloc(j))) => {
            if s.given.holds(*j) {
                None
            } else {
                Some(Cause::Released)
            }
        }
        (Ty::Res, Val::Known(Value::One | Value::Zero)) => Some(Cause::ConstResult),
        _ => None,
    }
}

/// Why an operation may not be issued with these arguments, by the first of them.
fn wrong_args(s: &Scene<'_>, args: &[(Ty, Val)]) -> Option<Cause>
    ensures { result ≡ spec.wrong_args s.now.given.now.held args.now }
{
    let mut rest = args;
    while let [a, tail @ ..] = rest {
        if let Some(why) = wrong_arg(s, &a.0, &a.1) {
            return Some(why);
        }
        rest = tail;
    }
    None
}

fn is_res(ty: &Ty) -> bool
    ensures { result ≡ spec.is_res ty.now }
{
    match ty {
        Ty::Res => true,
        _ => false,
    }
}

/// Whether an operation with these arguments is a measurement.
fn measures(args: &[(Ty, Val)]) -> bool
    ensures { result ≡ spec.measures args.now }
{
    let mut rest = args;
    while let [a, tail @ ..] = rest {
        if is_res(&a.0) {
            return true;
        }
        rest = tail;
    }
    false
}

/// Whether a declared function of this class is irreversible.
fn is_irreversible(f: &Function, class: Class) -> bool
    ensures { result ≡ spec.is_irreversible f.now class }
{
    match class {
        Class::Measure | Class::Returning => true,
        _ => f.attribute(b"irreversible").is_some(),
    }
}

fn after_reversible(phase: Phase) -> Option<Phase>
    ensures { result ≡ spec.after_reversible phase }
{
    match phase {
        Phase::Begin | Phase::Reversible => Some(Phase::Reversible),
        Phase::Irreversible | Phase::Output => None,
    }
}

fn after_irreversible(phase: Phase) -> Option<Phase>
    ensures { result ≡ spec.after_irreversible phase }
{
    match phase {
        Phase::Begin | Phase::Reversible | Phase::Irreversible => Some(Phase::Irreversible),
        Phase::Output => None,
    }
}

/// The phase that an operation leaves, where it may stand in this one.
fn phase_after(s: &Scene<'_>, irreversible: bool) -> Option<Phase>
    ensures { result ≡ spec.phase_after (at s.now) irreversible }
{
    if !s.target.is_base() {
        Some(s.given.phase)
    } else if irreversible {
        after_irreversible(s.given.phase)
    } else {
        after_reversible(s.given.phase)
    }
}

fn issue_in(s: &Scene<'_>, phase: Phase, name: &[u8], args: TypedVals) -> Result<Turn, Memory>
    ensures { IfOk result (λ turn. turn ≡ spec.issues_in (at s.now) (Some phase) name.now args) }
{
    let name = Bytes::from_slice(s.alloc, name)?;
    s.kept(Item::Operation(name, args), s.passed()?.with_phase(phase))
}

fn issue(s: &Scene<'_>, irreversible: bool, name: &[u8], args: TypedVals) -> Result<Turn, Memory>
    ensures { IfOk result (λ turn. turn ≡ spec.issues_in (at s.now) (spec.phase_after (at s.now) irreversible) name.now args) }
{
    match phase_after(s, irreversible) {
        Some(phase) => issue_in(s, phase, name, args),
        None => Ok(Turn::Bad(Kind::Phase)),
    }
}

fn operate_on(
    s: &Scene<'_>,
    name: &[u8],
    irreversible: bool,
    args: TypedVals,
) -> Result<Turn, Memory>
    ensures { IfOk result (λ turn. turn ≡ spec.operates_on (at s.now) name.now irreversible args) }
{
    match wrong_args(s, args.as_slice()) {
        Some(why) => Ok(Turn::Bad(Kind::Traps(why))),
        None => issue(s, irreversible, name, args),
    }
}

fn operate(
    s: &Scene<'_>,
    name: &[u8],
    measurement: bool,
    irreversible: bool,
    args: Option<TypedVals>,
) -> Result<Turn, Memory>
    ensures { IfOk result (λ turn. turn ≡ spec.operates (at s.now) name.now measurement irreversible args) }
{
    match args {
        Some(args) => {
            if measures(args.as_slice()) == measurement {
                operate_on(s, name, irreversible, args)
            } else {
                Ok(Turn::Lost)
            }
        }
        None => Ok(Turn::Lost),
    }
}

/// A gate of this name.
pub fn gate(
    s: &Scene<'_>,
    f: &Function,
    name: &[u8],
    args: &[(Ty, Operand)],
    vals: &[Val],
) -> Result<Turn, Memory>
    ensures { IfOk result (λ turn. turn ≡ spec.operates (at s.now) name.now false (spec.is_irreversible f.now Class.Gate)
        (spec.typed_args (map (λ a. a.0) args.now) vals.now)) }
{
    let args = typed_args(s.alloc, args, vals)?;
    operate(s, name, false, is_irreversible(f, Class::Gate), args)
}

/// A measurement of this name into a result that is given.
pub fn measure(
    s: &Scene<'_>,
    name: &[u8],
    args: &[(Ty, Operand)],
    vals: &[Val],
) -> Result<Turn, Memory>
    ensures { IfOk result (λ turn. turn ≡ spec.operates (at s.now) name.now true true
        (spec.typed_args (map (λ a. a.0) args.now) vals.now)) }
{
    let args = typed_args(s.alloc, args, vals)?;
    operate(s, name, true, true, args)
}

fn return_in(
    s: &Scene<'_>,
    x: Option<LocalId>,
    phase: Phase,
    args: TypedVals,
) -> Result<Turn, Memory>
    ensures { IfOk result (λ turn. turn ≡ spec.returns_in (at s.now) x (Some phase) args) }
{
    let number = s.given.returned;
    let mut args = args;
    args.push((Ty::Res, Val::Known(Value::Measured(number))))?;
    let item = Item::Operation(measurement(s.alloc)?, args);
    let returned = number.checked_add(1).ok_or(Memory)?;
    let u = s.bound(x, Val::Known(Value::Measured(number)))?;
    s.kept(item, u.with_returned(returned).with_phase(phase))
}

fn return_result(s: &Scene<'_>, x: Option<LocalId>, args: TypedVals) -> Result<Turn, Memory>
    ensures { IfOk result (λ turn. turn ≡ spec.returns_in (at s.now) x (spec.phase_after (at s.now) true) args) }
{
    match phase_after(s, true) {
        Some(phase) => return_in(s, x, phase, args),
        None => Ok(Turn::Bad(Kind::Phase)),
    }
}

fn returning_on(s: &Scene<'_>, x: Option<LocalId>, args: TypedVals) -> Result<Turn, Memory>
    ensures { IfOk result (λ turn. turn ≡ spec.returning_on (at s.now) x (spec.wrong_args s.now.given.now.held args) args) }
{
    match wrong_args(s, args.as_slice()) {
        Some(why) => Ok(Turn::Bad(Kind::Traps(why))),
        None => return_result(s, x, args),
    }
}

fn returning(s: &Scene<'_>, x: Option<LocalId>, args: Option<TypedVals>) -> Result<Turn, Memory>
    ensures { IfOk result (λ turn. turn ≡ spec.returning_turn (at s.now) x args) }
{
    match args {
        Some(args) => {
            if measures(args.as_slice()) {
                Ok(Turn::Lost)
            } else {
                returning_on(s, x, args)
            }
        }
        None => Ok(Turn::Lost),
    }
}

/// A measurement that returns a result.
pub fn measure_returning(
    s: &Scene<'_>,
    x: Option<LocalId>,
    args: &[(Ty, Operand)],
    vals: &[Val],
) -> Result<Turn, Memory>
    ensures { IfOk result (λ turn. turn ≡ spec.returning_turn (at s.now) x (spec.typed_args (map (λ a. a.0) args.now) vals.now)) }
{
    let args = typed_args(s.alloc, args, vals)?;
    returning(s, x, args)
}
