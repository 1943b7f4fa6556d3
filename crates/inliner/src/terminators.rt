//! Terminators.
ghost use Rattle.std.specs.Prelude.{◌≡◌, IfOk};
ghost use Rattle.static_steps.specs.Steps as spec;
ghost use Rattle.step_parts.specs.code.Scenes.{at};

use control_steps::{back, branch, jump, switch};
use ir_module::{Cases, Operand, Term};
use ir_values::{BlockId, Cause, Memory, Ty, Width};
use kept_items::Kind;
use static_steps::Turn;
use step_parts::Scene;

fn return_of(s: &Scene<'_>, ty: &Ty, a: &Operand) -> Result<Turn, Memory>
    ensures { IfOk result (λ turn. turn ≡ spec.term_turn (at s.now) (Term.Ret ty.now a.now)) }
{
    match s.val(a)? {
        Some(v) => back(s, Some(v)),
        None => Ok(Turn::Bad(Kind::Traps(Cause::Unbound))),
    }
}

fn branch_on(s: &Scene<'_>, condition: &Operand, yes: BlockId, no: BlockId) -> Result<Turn, Memory>
    ensures { IfOk result (λ turn. turn ≡ spec.term_turn (at s.now) (Term.CondBr condition.now yes no)) }
{
    match s.val(condition)? {
        Some(v) => branch(s, &v, yes, no),
        None => Ok(Turn::Bad(Kind::Traps(Cause::Unbound))),
    }
}

fn switch_of(
    s: &Scene<'_>,
    width: Width,
    a: &Operand,
    default: BlockId,
    cases: &Cases,
) -> Result<Turn, Memory>
    ensures { IfOk result (λ turn. turn ≡ spec.term_turn (at s.now) (Term.Switch (Ty.Int width) a.now default cases.now)) }
{
    match s.val(a)? {
        Some(v) => switch(s, width, &v, default, cases.as_slice()),
        None => Ok(Turn::Bad(Kind::Traps(Cause::Unbound))),
    }
}

fn switch_on(
    s: &Scene<'_>,
    ty: &Ty,
    a: &Operand,
    default: BlockId,
    cases: &Cases,
) -> Result<Turn, Memory>
    ensures { IfOk result (λ turn. turn ≡ spec.term_turn (at s.now) (Term.Switch ty.now a.now default cases.now)) }
{
    match ty {
        Ty::Int(width) => switch_of(s, *width, a, default, cases),
        _ => Ok(Turn::Lost),
    }
}

/// What a terminator does.
pub(crate) fn terminator(s: &Scene<'_>, term: &Term) -> Result<Turn, Memory>
    ensures { IfOk result (λ turn. turn ≡ spec.term_turn (at s.now) term.now) }
{
    match term {
        Term::RetVoid => back(s, None),
        Term::Ret(ty, a) => return_of(s, ty, a),
        Term::Br(b) => jump(s, *b),
        Term::CondBr(condition, yes, no) => branch_on(s, condition, *yes, *no),
        Term::Switch(ty, a, default, cases) => switch_on(s, ty, a, *default, cases),
    }
}
