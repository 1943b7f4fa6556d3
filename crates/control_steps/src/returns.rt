//! Returns (LLVM Language Reference, 'ret Instruction').
ghost use Rattle.std.specs.Prelude.{◌≡◌, None, Some, IfOk};
ghost use Rattle.static_steps.specs.Returns as spec;
ghost use Rattle.static_steps.specs.Works.{opened_frames};
ghost use Rattle.step_parts.specs.code.Frames.{opened_over};
ghost use Rattle.step_parts.specs.code.Scenes.{at};

use ir_module::{Module, Point};
use ir_values::{Int, LocalId, Memory, Value};
use kept_items::{Code, Dyn, Kind, Val};
use static_steps::{Frame, Turn};
use step_parts::{Found, Scene, open_frame, put_result, standing};

/// The name of the call before a point, if it has one.
#[tactic(auto, using(crate::proofs::Called::no_result))]
fn call_result(m: &Module, p: Point) -> Option<Option<LocalId>>
    ensures { result ≡ spec.call_result m.now p }
{
    let call = Point {
        index: p.index.saturating_sub(1),
        ..p
    };
    match standing(m, call) {
        Found::Inst(inst) => Some(inst.result),
        Found::Term(_) | Found::Nothing => None,
    }
}

fn exit_int(s: &Scene<'_>, i: Int) -> Turn
    ensures { result ≡ spec.exits_int (at s.now) i }
{
    if s.target.has_returns() || i.bits() == 0 {
        Turn::Exits(Code::Known(i.signed()))
    } else {
        Turn::Bad(Kind::Capability)
    }
}

fn exit_dynamic(s: &Scene<'_>, d: Dyn) -> Turn
    ensures { result ≡ spec.exits_dynamic (at s.now) d }
{
    if s.target.has_returns() {
        Turn::Exits(Code::Dynamic(d))
    } else {
        Turn::Bad(Kind::Capability)
    }
}

fn exit_known(s: &Scene<'_>, v: &Value) -> Turn
    ensures { result ≡ spec.exits_known (at s.now) v.now }
{
    match v {
        Value::Int(i) => exit_int(s, *i),
        _ => Turn::Lost,
    }
}

fn exit_with(s: &Scene<'_>, a: &Val) -> Turn
    ensures { result ≡ spec.exits (at s.now) (Some a.now) }
{
    match a {
        Val::Known(v) => exit_known(s, v),
        Val::Dynamic(d) => exit_dynamic(s, *d),
    }
}

/// The entry returns.
fn exit(s: &Scene<'_>, a: &Option<Val>) -> Turn
    ensures { result ≡ spec.exits (at s.now) a.now }
{
    match a {
        Some(a) => exit_with(s, a),
        None => Turn::Exits(Code::Known(0)),
    }
}

/// To the frame that waits, where the call's name gets the value.
fn resume_with<'a>(
    s: &Scene<'a>,
    f: &Frame,
    below: &'a [Frame],
    x: Option<LocalId>,
    a: Val,
) -> Result<Turn, Memory>
    ensures { IfOk result (λ turn. turn ≡ spec.resumes (at s.now)
        (opened_over below.now f.now) (opened_frames below.now) (Some x) (Some a)) }
{
    let frame = open_frame(s.alloc, f, below)?;
    let names = put_result(frame.names, x, a)?;
    s.goes(s.draft(frame.at, names, None, below)?)
}

fn resume_without<'a>(
    s: &Scene<'a>,
    f: &Frame,
    below: &'a [Frame],
    x: Option<LocalId>,
) -> Result<Turn, Memory>
    ensures { IfOk result (λ turn. turn ≡ spec.resumes (at s.now)
        (opened_over below.now f.now) (opened_frames below.now) (Some x) None) }
{
    match x {
        Some(_) => Ok(Turn::Lost),
        None => {
            let frame = open_frame(s.alloc, f, below)?;
            s.goes(s.draft(frame.at, frame.names, None, below)?)
        }
    }
}

fn resume<'a>(
    s: &Scene<'a>,
    f: &Frame,
    below: &'a [Frame],
    x: Option<LocalId>,
    a: Option<Val>,
) -> Result<Turn, Memory>
    ensures { IfOk result (λ turn. turn ≡ spec.resumes (at s.now)
        (opened_over below.now f.now) (opened_frames below.now) (Some x) a) }
{
    match a {
        Some(a) => resume_with(s, f, below, x, a),
        None => resume_without(s, f, below, x),
    }
}

fn resume_after<'a>(
    s: &Scene<'a>,
    f: &Frame,
    below: &'a [Frame],
    a: Option<Val>,
) -> Result<Turn, Memory>
    ensures { IfOk result (λ turn. turn ≡ spec.resumes (at s.now)
        (opened_over below.now f.now) (opened_frames below.now) (spec.call_result s.now.module.now f.now.at) a) }
{
    match call_result(s.module, f.at) {
        Some(x) => resume(s, f, below, x, a),
        None => Ok(Turn::Lost),
    }
}

/// The return from the top frame.
pub fn back(s: &Scene<'_>, a: Option<Val>) -> Result<Turn, Memory>
    ensures { IfOk result (λ turn. turn ≡ spec.back_turn (at s.now) (at s.now).w.below a) }
{
    match s.given.below.as_slice() {
        [f, below @ ..] => resume_after(s, f, below, a),
        [] => Ok(exit(s, &a)),
    }
}
