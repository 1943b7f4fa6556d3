//! The pass along the tree.
ghost use Rattle.std.specs.Prelude.{◌≡◌, ◌+◌, ◌^◌, ◌<◌, ◌++◌, length, map, slice_get, OnOk, IfOk};
ghost use Rattle.ir_module.specs.Numbered.{Numbered};
ghost use Rattle.ir_module.specs.Spots.{point_at};
ghost use Rattle.ir_module.specs.Steps.{PhiAt, InstAt, steps_of_block};
ghost use Rattle.ir_module.specs.Tree.{blocks_of};
ghost use Rattle.profile_rules.specs.code.Listed.{step_findings, block_findings, function_part, findings};
ghost use Rattle.findings.specs.code.Within.{IsFunction, AreFew, part_at};

use crate::profile::Profile;
use ir_module::{Block, Blocks, Function, Inst, Module, Phi, Point};
use ir_values::{BlockId, FuncId, Memory};
use profile_rules::Findings;
use std::alloc::Global;

/// A function of a module, and the profile that it is held against.
#[derive(Drop)]
struct Pass<'a, P> {
    profile: &'a P,
    function: &'a Function,
    number: FuncId,
}

/// The index of a block's terminator.
fn end_index(block: &Block) -> u64
    ensures { result ≡ length block.now.phis + length block.now.insts }
{
    (block.phis.as_slice().len() + block.insts.as_slice().len()) as u64
}

impl<'a, P: Profile> Pass<'a, P> {
    fn point(&self, block: BlockId, index: u64) -> Point
        ensures { result ≡ point_at self.now.number.0 block.0 index }
    {
        Point {
            func: self.number,
            block,
            index,
        }
    }

    /// Adds what phis break, which stand in a block from this index on.
    fn phis(
        &self,
        block: BlockId,
        mut index: u64,
        mut phis: &[Phi],
        found: &mut Findings,
    ) -> Result<(), Memory>
        requires ready { P.IsReady self.now.profile.now }
        requires function { IsFunction (P.tree self.now.profile.now) self.now.number.0 self.now.function.now }
        requires block { block.0 < length (blocks_of self.now.function.now) }
        requires few { index + length phis.now < 2 ^ 64 }
        ensures { OnOk result (found.new ≡ found.old ++ step_findings (P.rules self.now.profile.now)
            self.now.number.0 self.now.function.now block.0 index (map PhiAt phis.entry.now)) }
    {
        while let [phi, rest @ ..] = phis {
            self.profile
                .on_phi(self.function, self.point(block, index), phi, found)?;
            index += 1;
            phis = rest;
        }
        Ok(())
    }

    /// Adds what instructions break, which stand in a block from this index on.
    fn insts(
        &self,
        block: BlockId,
        mut index: u64,
        mut insts: &[Inst],
        found: &mut Findings,
    ) -> Result<(), Memory>
        requires ready { P.IsReady self.now.profile.now }
        requires function { IsFunction (P.tree self.now.profile.now) self.now.number.0 self.now.function.now }
        requires block { block.0 < length (blocks_of self.now.function.now) }
        requires few { index + length insts.now < 2 ^ 64 }
        ensures { OnOk result (found.new ≡ found.old ++ step_findings (P.rules self.now.profile.now)
            self.now.number.0 self.now.function.now block.0 index (map InstAt insts.entry.now)) }
    {
        while let [inst, rest @ ..] = insts {
            self.profile
                .on_inst(self.function, self.point(block, index), inst, found)?;
            index += 1;
            insts = rest;
        }
        Ok(())
    }

    /// Adds what the steps of a block break.
    fn block(&self, number: BlockId, block: &Block, found: &mut Findings) -> Result<(), Memory>
        requires ready { P.IsReady self.now.profile.now }
        requires function { IsFunction (P.tree self.now.profile.now) self.now.number.0 self.now.function.now }
        requires block { number.0 < length (blocks_of self.now.function.now) }
        ensures { OnOk result (found.new ≡ found.old ++ step_findings (P.rules self.now.profile.now)
            self.now.number.0 self.now.function.now number.0 0 (steps_of_block block.now)) }
    {
        self.phis(number, 0, block.phis.as_slice(), found)?;
        self.insts(
            number,
            block.phis.len() as u64,
            block.insts.as_slice(),
            found,
        )?;
        self.profile.on_term(
            self.function,
            self.point(number, end_index(block)),
            &block.term,
            found,
        )
    }

    /// Adds what the steps of all blocks break.
    fn blocks(&self, blocks: &Blocks, found: &mut Findings) -> Result<(), Memory>
        requires ready { P.IsReady self.now.profile.now }
        requires function { IsFunction (P.tree self.now.profile.now) self.now.number.0 self.now.function.now }
        requires all { blocks.now ≡ blocks_of self.now.function.now }
        requires few { AreFew blocks.now }
        ensures { OnOk result (found.new ≡ found.old ++ block_findings (P.rules self.now.profile.now)
            self.now.number.0 self.now.function.now 0 blocks.now) }
    {
        for number in 0..blocks.len() {
            self.block(BlockId(number as u32), blocks.at(number), found)?;
        }
        Ok(())
    }

    fn steps(&self, found: &mut Findings) -> Result<(), Memory>
        requires ready { P.IsReady self.now.profile.now }
        requires function { IsFunction (P.tree self.now.profile.now) self.now.number.0 self.now.function.now }
        requires few { AreFew (blocks_of self.now.function.now) }
        ensures { OnOk result (found.new ≡ found.old ++ block_findings (P.rules self.now.profile.now)
            self.now.number.0 self.now.function.now 0 (blocks_of self.now.function.now)) }
    {
        match &self.function.blocks {
            Some(blocks) => self.blocks(blocks, found),
            None => Ok(()),
        }
    }

    /// Adds what the function breaks, then what its steps do.
    fn all(&self, found: &mut Findings) -> Result<(), Memory>
        requires ready { P.IsReady self.now.profile.now }
        requires function { IsFunction (P.tree self.now.profile.now) self.now.number.0 self.now.function.now }
        requires few { AreFew (blocks_of self.now.function.now) }
        ensures { OnOk result (found.new ≡ found.old ++ function_part (P.rules self.now.profile.now)
            self.now.number.0 self.now.function.now) }
    {
        self.profile.on_function(self.number, self.function, found)?;
        self.steps(found)
    }
}

/// Adds what the function of this number breaks, then what its steps do.
#[tactic(auto, using(crate::proofs::Few::few_functions, crate::proofs::Few::few_blocks))]
fn function<P: Profile>(
    profile: &P,
    m: &Module,
    number: usize,
    found: &mut Findings,
) -> Result<(), Memory>
    requires ready { P.IsReady profile.now }
    requires tree { P.tree profile.now ≡ m.now }
    requires numbered { Numbered m.now }
    requires number { number < length m.now.funcs }
    ensures { OnOk result (found.new ≡ found.old ++ part_at (P.rules profile.now) number (slice_get m.now.funcs number)) }
{
    let pass = Pass {
        profile,
        function: m.funcs.at(number),
        number: FuncId(number as u32),
    };
    pass.all(found)
}

/// The findings of a profile in a module: those of the module as a whole, then for each function its own and those of
/// its steps, each in the order of the rules. It looks at each part once.
pub fn findings_of<P: Profile>(alloc: Global, profile: &P, m: &Module) -> Result<Findings, Memory>
    requires ready { P.IsReady profile.now }
    requires tree { P.tree profile.now ≡ m.now }
    requires numbered { Numbered m.now }
    ensures { IfOk result (λ fs. fs ≡ findings (P.rules profile.now) m.now) }
{
    let mut found = Findings::new(alloc);
    profile.on_module(&mut found)?;
    for number in 0..m.funcs.len() {
        function(profile, m, number, &mut found)?;
    }
    Ok(found)
}
