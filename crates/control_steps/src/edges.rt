//! Edges: the phis of a block take their values (LLVM Language Reference, 'phi Instruction').
ghost use Rattle.std.specs.Prelude.{◌≡◌, ◌++◌, None, Some, IfOk, MatchOption};
ghost use Rattle.qir_meaning.specs.Moves as moves;
ghost use Rattle.static_steps.specs.Edges as spec;
ghost use Rattle.static_steps.specs.Values as vals;
ghost use Rattle.step_parts.specs.code.Scenes.{at};

use ir_module::{Block, Operand, Phi, Point};
use ir_values::{BlockId, LocalId, Memory, Seq};
use kept_items::{Choice, Val};
use static_steps::{Move, Moves, Turn, WorkNames};
use step_parts::{Scene, block_in, drop_name, put};

/// The operand that a phi takes on the edge from a block.
fn entry_for(entries: &[(Operand, BlockId)], from: BlockId) -> Option<&Operand>
    ensures { MatchOption result (moves.entry_for entries.now from ≡ None)
        (λ r. moves.entry_for entries.now from ≡ Some r.now) }
{
    let mut rest = entries;
    while let [e, tail @ ..] = rest {
        if e.1.0 == from.0 {
            return Some(&e.0);
        }
        rest = tail;
    }
    None
}

/// The names, `x` with this value among them, or without `x`.
fn put_some(
    s: &Scene<'_>,
    names: WorkNames,
    x: LocalId,
    a: Option<Val>,
) -> Result<WorkNames, Memory>
    ensures { IfOk result (λ r. r ≡ vals.put_some x a names) }
{
    match a {
        Some(a) => put(names, x, a),
        None => drop_name(s.alloc, names.as_slice(), x),
    }
}

/// The names after the phis have taken their values, each by the names before.
fn phis_bring(s: &Scene<'_>, phis: &[Phi], from: BlockId) -> Result<Option<WorkNames>, Memory>
    ensures { IfOk result
        (λ o. o ≡ spec.phis_bring phis.now from (at s.now).w.top.names (at s.now).w.top.names) }
{
    let mut new = s.names()?;
    let mut rest = phis;
    while let [phi, tail @ ..] = rest {
        match entry_for(phi.entries.as_slice(), from) {
            Some(a) => {
                let value = s.val(a)?;
                new = put_some(s, new, phi.result, value)?;
            }
            None => return Ok(None),
        }
        rest = tail;
    }
    Ok(Some(new))
}

fn arrived(s: &Scene<'_>, b: BlockId, to: &Block, names: WorkNames) -> Result<Move, Memory>
    ensures { IfOk result (λ mv. Some mv ≡ spec.arrived (at s.now) b to.now (Some names)) }
{
    let point = Point {
        func: s.given.top.at.func,
        block: b,
        index: to.phis.len() as u64,
    };
    s.move_to(s.at_point(point, names)?)
}

fn along_to(s: &Scene<'_>, b: BlockId, to: &Block) -> Result<Option<Move>, Memory>
    ensures { IfOk result (λ o. o ≡ spec.along_to (at s.now) b (Some to.now)) }
{
    match phis_bring(s, to.phis.as_slice(), s.given.top.at.block)? {
        Some(names) => Ok(Some(arrived(s, b, to, names)?)),
        None => Ok(None),
    }
}

/// The move along the edge to a block.
fn along(s: &Scene<'_>, b: BlockId) -> Result<Option<Move>, Memory>
    ensures { IfOk result (λ o. o ≡ spec.along (at s.now) b) }
{
    match block_in(s.module, s.given.top.at.func, b) {
        Some(to) => along_to(s, b, to),
        None => Ok(None),
    }
}

#[tactic(auto, using(crate::proofs::Along::ahead_one))]
fn all_along(s: &Scene<'_>, targets: &[BlockId]) -> Result<Option<Moves>, Memory>
    ensures { IfOk result (λ o. o ≡ spec.all_along (at s.now) targets.now) }
{
    let mut moves = Seq::new(s.alloc);
    let mut rest = targets;
    while let [b, tail @ ..] = rest {
        match along(s, *b)? {
            Some(mv) => moves.push(mv)?,
            None => return Ok(None),
        }
        rest = tail;
    }
    Ok(Some(moves))
}

/// The step along the edges to these blocks.
pub(crate) fn edges_to(s: &Scene<'_>, targets: &[BlockId], choice: Choice) -> Result<Turn, Memory>
    ensures { IfOk result (λ turn. turn ≡ spec.edges_to (at s.now) targets.now choice) }
{
    match all_along(s, targets)? {
        Some(moves) => Ok(Turn::Goes(moves, None, choice)),
        None => Ok(Turn::Lost),
    }
}
