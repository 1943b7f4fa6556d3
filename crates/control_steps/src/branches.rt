//! Branches and switches (LLVM Language Reference, 'br Instruction', 'switch Instruction').
ghost use Rattle.std.specs.Prelude.{◌≡◌, ◌++◌, [], ◌∷◌, IfOk};
ghost use Rattle.ir_values.specs.Values.{is_bit};
ghost use Rattle.qir_meaning.specs.Moves.{target_of};
ghost use Rattle.static_steps.specs.Edges as spec;
ghost use Rattle.step_parts.specs.code.Scenes.{at};

use crate::edges::edges_to;
use ir_values::{BlockId, Int, Memory, Seq, Value, Width};
use kept_items::{Choice, Dyn, Kind, Val};
use static_steps::Turn;
use std::alloc::Global;
use step_parts::Scene;

/// The block that a switch leads to.
fn target_of(i: Int, cases: &[(Int, BlockId)], default: BlockId) -> BlockId
    ensures { result ≡ target_of i cases.now default }
{
    let mut rest = cases;
    while let [c, tail @ ..] = rest {
        if c.0.bits() == i.bits() {
            return c.1;
        }
        rest = tail;
    }
    default
}

/// The blocks of a switch in the order of its edges.
fn targets(
    alloc: Global,
    cases: &[(Int, BlockId)],
    default: BlockId,
) -> Result<Seq<BlockId>, Memory>
    ensures { IfOk result (λ r. r ≡ spec.targets cases.now default) }
{
    let mut out = Seq::new(alloc);
    let mut rest = cases;
    while let [c, tail @ ..] = rest {
        out.push(c.1)?;
        rest = tail;
    }
    out.push(default)?;
    Ok(out)
}

fn case_values(alloc: Global, cases: &[(Int, BlockId)]) -> Result<Seq<Int>, Memory>
    ensures { IfOk result (λ r. r ≡ spec.case_values cases.now) }
{
    let mut out = Seq::new(alloc);
    let mut rest = cases;
    while let [c, tail @ ..] = rest {
        out.push(c.0)?;
        rest = tail;
    }
    Ok(out)
}

fn is_bit(width: Width) -> bool
    ensures { result ≡ is_bit width }
{
    match width {
        Width::W1 => true,
        _ => false,
    }
}

/// The step to a block.
pub fn jump(s: &Scene<'_>, b: BlockId) -> Result<Turn, Memory>
    ensures { IfOk result (λ turn. turn ≡ spec.edges_to (at s.now) (b ∷ []) Choice.One) }
{
    edges_to(s, &[b], Choice::One)
}

fn branch_known(s: &Scene<'_>, condition: &Value, yes: BlockId, no: BlockId) -> Result<Turn, Memory>
    ensures { IfOk result (λ turn. turn ≡ spec.branch_known (at s.now) condition.now yes no) }
{
    match condition {
        Value::Int(i) => jump(s, if i.bits() == 1 { yes } else { no }),
        _ => Ok(Turn::Lost),
    }
}

/// A conditional branch.
pub fn branch(s: &Scene<'_>, condition: &Val, yes: BlockId, no: BlockId) -> Result<Turn, Memory>
    ensures { IfOk result (λ turn. turn ≡ spec.branch_turn (at s.now) condition.now yes no) }
{
    match condition {
        Val::Known(v) => branch_known(s, v, yes, no),
        Val::Dynamic(d) => edges_to(s, &[yes, no], Choice::Branch(*d)),
    }
}

fn switch_known(
    s: &Scene<'_>,
    a: &Value,
    default: BlockId,
    cases: &[(Int, BlockId)],
) -> Result<Turn, Memory>
    ensures { IfOk result (λ turn. turn ≡ spec.switch_known (at s.now) a.now default cases.now) }
{
    match a {
        Value::Int(i) => jump(s, target_of(*i, cases, default)),
        _ => Ok(Turn::Lost),
    }
}

fn switch_dynamic(
    s: &Scene<'_>,
    width: Width,
    d: Dyn,
    default: BlockId,
    cases: &[(Int, BlockId)],
) -> Result<Turn, Memory>
    ensures { IfOk result (λ turn. turn ≡ spec.switch_dynamic (at s.now) width d default cases.now) }
{
    if s.target.has_switch() && (is_bit(width) || s.target.has_ints()) {
        let targets = targets(s.alloc, cases, default)?;
        let values = case_values(s.alloc, cases)?;
        edges_to(s, targets.as_slice(), Choice::Switch(d, width, values))
    } else {
        Ok(Turn::Bad(Kind::Capability))
    }
}

/// A switch on a value of this width.
pub fn switch(
    s: &Scene<'_>,
    width: Width,
    a: &Val,
    default: BlockId,
    cases: &[(Int, BlockId)],
) -> Result<Turn, Memory>
    ensures { IfOk result (λ turn. turn ≡ spec.switch_turn (at s.now) width a.now default cases.now) }
{
    match a {
        Val::Known(v) => switch_known(s, v, default, cases),
        Val::Dynamic(d) => switch_dynamic(s, width, *d, default, cases),
    }
}
