//! Blocks by their numbers, and what stands at points.
ghost use Rattle.std.specs.Prelude.{◌≡◌, ◌≤◌, ◌-◌, None, Some, length, slice_get, MatchOption};
ghost use Rattle.ir_module.specs.Steps.{step_at, step_in_module};
ghost use Rattle.qir_meaning.specs.Moves as moves;
ghost use Rattle.step_parts.specs.code.Standing.{IsFound};

use ir_module::{Block, Inst, Module, Point, Term};
use ir_values::{BlockId, FuncId};

/// What stands at a point.
#[derive(Drop)]
pub enum Found<'a> {
    Inst(&'a Inst),
    Term(&'a Term),
    /// A phi, or nothing.
    Nothing,
}

/// The block of a function, where it has one of this number.
pub fn block_in(m: &Module, f: FuncId, b: BlockId) -> Option<&Block>
    ensures { MatchOption result (moves.block_in m.now f b ≡ None) (λ r. moves.block_in m.now f b ≡ Some r.now) }
{
    match m.funcs.as_slice().get(f.0 as usize) {
        Some(function) => match &function.blocks {
            Some(blocks) => blocks.as_slice().get(b.0 as usize),
            None => None,
        },
        None => None,
    }
}

/// What stands at this index behind the instructions.
#[tactic(auto, using(crate::proofs::Points::term_at, crate::proofs::Points::neither_behind))]
fn end_at(block: &Block, i: u64) -> Found<'_>
    requires phis { length block.now.phis ≤ i }
    requires insts { slice_get block.now.insts (i - length block.now.phis) ≡ None }
    ensures { IsFound (step_at block.now i) result }
{
    if i - block.phis.len() as u64 == block.insts.len() as u64 {
        Found::Term(&block.term)
    } else {
        Found::Nothing
    }
}

#[tactic(auto, using(crate::proofs::Points::neither_phi, crate::proofs::Points::inst_at))]
fn standing_in(block: &Block, i: u64) -> Found<'_>
    ensures { IsFound (step_at block.now i) result }
{
    let phis = block.phis.len() as u64;
    if i < phis {
        Found::Nothing
    } else {
        match block.insts.as_slice().get((i - phis) as usize) {
            Some(inst) => Found::Inst(inst),
            None => end_at(block, i),
        }
    }
}

/// The instruction or the terminator at a point.
#[tactic(auto, using(crate::proofs::Points::step_here, crate::proofs::Points::no_step_here))]
pub fn standing(m: &Module, p: Point) -> Found<'_>
    ensures { IsFound (step_in_module m.now p) result }
{
    match block_in(m, p.func, p.block) {
        Some(block) => standing_in(block, p.index),
        None => Found::Nothing,
    }
}
