//! The flow of a function's local names.
ghost use Rattle.std.specs.Prelude.{◌≡◌, ◌++◌, slice_get, IfOk, IfSome};
ghost use Rattle.name_flow.specs.code.Built.{IsBuiltFrom};
ghost use Rattle.name_flow.specs.code.Marks.{gather, block_used, block_defined, block_edges, block_phis_used};
ghost use Rattle.name_flow.specs.code.Spread.{IsNarrow};
ghost use Rattle.name_flow.specs.code.Runs.{in_run};
ghost use Rattle.name_flow.specs.code.Triples.{Sorts, next};
ghost use Rattle.name_flow.specs.Tables.{live, or_else, end_use, IsFlowOf, HasBody};

use crate::marks::{Marks, end_indices, push_definitions, push_edges, push_phi_uses, push_uses};
use crate::runs::runs;
use crate::triples::Triples;
use ir_module::{Block, Module, Point};
use ir_values::{FuncId, LocalId, Memory, Seq};
use std::alloc::Global;

/// Where the local names of a function are live. A name is live at a point where some walk from
/// there reaches a use of it before a definition of it. A phi uses its operands at the ends of the
/// blocks that they come from (LLVM Language Reference, 'phi Instruction').
#[derive(Debug, Drop)]
pub struct Flow {
    /// Block, name and index of each use.
    used: Triples,
    /// Block, name and index of each definition.
    defined: Triples,
    /// Name, last block and first block of each run of consecutive blocks at whose ends a name is live.
    runs: Triples,
    /// The index of each block's terminator.
    last: Seq<u64>,
}

impl Flow {
    /// The flow of a function that has a body. The only error is want of memory.
    pub fn build(alloc: Global, m: &Module, f: FuncId) -> Result<Flow, Memory>
        requires { HasBody m.now f }
        ensures { IfOk result (λ flow. IfSome (slice_get m.now.funcs f.0) (λ function. IsFlowOf function flow)) }
    {
        match &m.function(f).blocks {
            Some(blocks) => Flow::of_blocks(alloc, blocks.as_slice()),
            None => unreachable!(),
        }
    }

    fn of_blocks(alloc: Global, blocks: &[Block]) -> Result<Flow, Memory>
        ensures { IfOk result (λ flow. IsBuiltFrom blocks.now flow) }
    {
        let edges = edges(alloc, blocks)?;
        let defined = definitions(alloc, blocks)?;
        let used = uses(alloc, blocks, &edges)?;
        let runs = runs(alloc, &used, &defined, &edges)?;
        let last = end_indices(alloc, blocks)?;
        Ok(Flow {
            used,
            defined,
            runs,
            last,
        })
    }

    /// Whether the local name `x` is live at the point `p`. It is live at no point that the
    /// function doesn't have, and the function that `p` names is not looked at. It takes no memory.
    pub fn live_at(&self, p: Point, x: LocalId) -> bool
        ensures { result ≡ live self.now p x }
    {
        let b = u64::from(p.block.0);
        let Some(used) = self.next_use(b, x.0, p.index) else {
            return false;
        };
        match self.defined.next(b, x.0, p.index) {
            Some(defined) => used <= defined,
            None => true,
        }
    }

    /// The next use of the name `x` in the block `b` from the index `i` on.
    fn next_use(&self, b: u64, x: u64, i: u64) -> Option<u64>
        ensures { result ≡ or_else (next self.now.used b x i) (end_use (in_run self.now.runs x b) (slice_get self.now.last b) i) }
    {
        match self.used.next(b, x, i) {
            Some(used) => Some(used),
            None => self.end_use(b, x, i),
        }
    }

    /// The index of the terminator of the block `b`, if the name `x` lives at its end and it stands
    /// at `i` or later.
    fn end_use(&self, b: u64, x: u64, i: u64) -> Option<u64>
        ensures { result ≡ end_use (in_run self.now.runs x b) (slice_get self.now.last b) i }
    {
        if !self.runs.in_run(x, b) {
            return None;
        }
        let last = self.last.as_slice().get(b as usize).copied()?;
        if i <= last { Some(last) } else { None }
    }
}

fn edges(alloc: Global, blocks: &[Block]) -> Result<Triples, Memory>
    ensures sorted { IfOk result (λ edges. Sorts (gather block_edges 0 blocks.now) edges) }
    ensures narrow { IfOk result IsNarrow }
{
    let mut marks = Marks::new(alloc);
    push_edges(&mut marks, 0, blocks)?;
    Ok(Triples::sort(marks.into_vec()))
}

fn definitions(alloc: Global, blocks: &[Block]) -> Result<Triples, Memory>
    ensures { IfOk result (λ defined. Sorts (gather block_defined 0 blocks.now) defined) }
{
    let mut marks = Marks::new(alloc);
    push_definitions(&mut marks, 0, blocks)?;
    Ok(Triples::sort(marks.into_vec()))
}

fn uses(alloc: Global, blocks: &[Block], edges: &Triples) -> Result<Triples, Memory>
    ensures { IfOk result (λ used. Sorts (gather block_used 0 blocks.now ++ gather (block_phis_used blocks.now edges.now) 0 blocks.now) used) }
{
    let mut marks = Marks::new(alloc);
    push_uses(&mut marks, 0, blocks)?;
    push_phi_uses(&mut marks, blocks, edges, 0, blocks)?;
    Ok(Triples::sort(marks.into_vec()))
}
