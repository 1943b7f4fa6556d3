//! Instructions: their operands are read first.
ghost use Rattle.std.specs.Prelude.{◌≡◌, IfOk};
ghost use Rattle.inliner.specs.code.Instructions as code;
ghost use Rattle.step_parts.specs.code.Scenes.{at};

use crate::calls::call;
use instruction_steps::{binary, convert, icmp, select};
use ir_module::{Inst, InstKind, Operand};
use ir_values::{BinOp, Cause, Conv, Flags, LocalId, Memory, Pred, Ty};
use kept_items::Kind;
use static_steps::Turn;
use step_parts::Scene;

fn binary_inst(
    s: &Scene<'_>,
    x: Option<LocalId>,
    op: BinOp,
    flags: Flags,
    ty: &Ty,
    a: &Operand,
    b: &Operand,
) -> Result<Turn, Memory>
    ensures { IfOk result (λ turn. turn ≡ code.inst_of (at s.now) x (InstKind.Binary op flags ty.now a.now b.now)) }
{
    match (s.val(a)?, s.val(b)?) {
        (Some(u), Some(v)) => match ty {
            Ty::Int(width) => binary(s, x, op, flags, *width, &u, &v),
            _ => Ok(Turn::Lost),
        },
        _ => Ok(Turn::Bad(Kind::Traps(Cause::Unbound))),
    }
}

fn icmp_inst(
    s: &Scene<'_>,
    x: Option<LocalId>,
    p: Pred,
    ty: &Ty,
    a: &Operand,
    b: &Operand,
) -> Result<Turn, Memory>
    ensures { IfOk result (λ turn. turn ≡ code.inst_of (at s.now) x (InstKind.Icmp p ty.now a.now b.now)) }
{
    match (s.val(a)?, s.val(b)?) {
        (Some(u), Some(v)) => match ty {
            Ty::Int(width) => icmp(s, x, p, *width, &u, &v),
            _ => Ok(Turn::Lost),
        },
        _ => Ok(Turn::Bad(Kind::Traps(Cause::Unbound))),
    }
}

fn convert_inst(
    s: &Scene<'_>,
    x: Option<LocalId>,
    conversion: Conv,
    ty: &Ty,
    a: &Operand,
    to: &Ty,
) -> Result<Turn, Memory>
    ensures { IfOk result (λ turn. turn ≡ code.inst_of (at s.now) x (InstKind.Convert conversion ty.now a.now to.now)) }
{
    match s.val(a)? {
        Some(u) => match (ty, to) {
            (Ty::Int(width), Ty::Int(to)) => convert(s, x, conversion, *width, &u, *to),
            _ => Ok(Turn::Lost),
        },
        None => Ok(Turn::Bad(Kind::Traps(Cause::Unbound))),
    }
}

fn select_inst(
    s: &Scene<'_>,
    x: Option<LocalId>,
    condition: &Operand,
    ty: &Ty,
    a: &Operand,
    other: &Ty,
    b: &Operand,
) -> Result<Turn, Memory>
    ensures { IfOk result (λ turn. turn ≡ code.inst_of (at s.now) x (InstKind.Select condition.now ty.now a.now other.now b.now)) }
{
    match s.val(condition)? {
        Some(c) => match (s.val(a)?, s.val(b)?) {
            (Some(u), Some(v)) => select(s, x, ty, &c, &u, &v),
            _ => Ok(Turn::Bad(Kind::Traps(Cause::Unbound))),
        },
        None => Ok(Turn::Bad(Kind::Traps(Cause::Unbound))),
    }
}

/// What an instruction does.
pub(crate) fn instruction(s: &Scene<'_>, inst: &Inst) -> Result<Turn, Memory>
    ensures { IfOk result (λ turn. turn ≡ code.inst_of (at s.now) inst.now.result inst.now.what) }
{
    let x = inst.result;
    match &inst.what {
        InstKind::Binary(op, flags, ty, a, b) => binary_inst(s, x, *op, *flags, ty, a, b),
        InstKind::Icmp(p, ty, a, b) => icmp_inst(s, x, *p, ty, a, b),
        InstKind::Convert(conversion, ty, a, to) => convert_inst(s, x, *conversion, ty, a, to),
        InstKind::Select(c, ty, a, other, b) => select_inst(s, x, c, ty, a, other, b),
        InstKind::Call(ret, callee, args) => call(s, x, ret, callee, args),
    }
}
