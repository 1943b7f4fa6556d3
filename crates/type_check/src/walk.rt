//! The first fault of a module, in one pass along its tree.
ghost use Rattle.std.specs.Prelude.{◌≡◌, ◌+◌, ◌<◌, ◌^◌, ◌∷◌, [], true, length, map, IfOk};
ghost use Rattle.std.specs.List.{list_all};
ghost use Rattle.ir_module.specs.declared.places.Spot.TheVariants as spot;
ghost use Rattle.ir_module.specs.Numbered.{are_few};
ghost use Rattle.ir_module.specs.Spots.{point_at};
ghost use Rattle.ir_module.specs.Steps.{PhiAt, InstAt, TermAt, steps_of_block};
ghost use Rattle.ir_module.specs.Tree.{blocks_of};
ghost use Rattle.type_check.specs.code.Operands.{IsTold, signature_of};
ghost use Rattle.type_check.specs.code.Phis.{AreLeft, LeadInto};
ghost use Rattle.type_check.specs.code.Search.{or_else};
ghost use Rattle.type_check.specs.code.Walk as spec;

use crate::arcs::{arcs, split};
use crate::breaks::Walk;
use crate::code::TypeCode;
use crate::required::Required;
use crate::reserved::body_has_own_name;
use crate::scene::Scene;
use crate::signatures::Signature;
use ir_module::{Block, Blocks, Function, Inst, Module, Phi, Point, Spot, Term};
use ir_values::{BlockId, FuncId, Memory};
use std::alloc::Global;

/// Where a rule is broken, and which.
pub(crate) type Fault = (Spot, TypeCode);

impl<'a> Walk<'a> {
    fn spot(&self, b: u32, index: u64) -> Spot
        ensures { result ≡ spot.At (point_at self.now.number.0 b index) }
    {
        Spot::At(Point {
            func: self.number,
            block: BlockId(b),
            index,
        })
    }

    /// The first fault of phis of block `b`, which are numbered from `index` on.
    fn phis_fault(
        &self,
        alloc: Global,
        b: u32,
        into: &[(u32, u32)],
        mut index: u64,
        mut phis: &[Phi],
    ) -> Result<Option<Fault>, Memory>
        requires told { IsTold self.now.scene }
        requires into { LeadInto (blocks_of self.now.scene.function.now) b into.now }
        requires room { index + length phis.now < 2 ^ 64 }
        ensures { IfOk result (λ r. r ≡ spec.steps_of_walk self.now b index (map PhiAt phis.entry.now)) }
    {
        while let [phi, rest @ ..] = phis {
            if let Some(code) = self.phi(alloc, b, into, phi)? {
                return Ok(Some((self.spot(b, index), code)));
            }
            index += 1;
            phis = rest;
        }
        Ok(None)
    }

    /// The first fault of instructions of block `b`, which are numbered from `index` on.
    fn insts_fault(&self, b: u32, mut index: u64, mut insts: &[Inst]) -> Option<Fault>
        requires told { IsTold self.now.scene }
        requires room { index + length insts.now < 2 ^ 64 }
        ensures { result ≡ spec.steps_of_walk self.now b index (map InstAt insts.entry.now) }
    {
        while let [inst, rest @ ..] = insts {
            if let Some(code) = self.inst(b, inst) {
                return Some((self.spot(b, index), code));
            }
            index += 1;
            insts = rest;
        }
        None
    }

    fn term_fault(
        &self,
        alloc: Global,
        b: u32,
        index: u64,
        term: &Term,
    ) -> Result<Option<Fault>, Memory>
        requires { IsTold self.now.scene }
        ensures { IfOk result (λ r. r ≡ spec.steps_of_walk self.now b index (TermAt term.now ∷ [])) }
    {
        match self.term(alloc, b, term)? {
            Some(code) => Ok(Some((self.spot(b, index), code))),
            None => Ok(None),
        }
    }

    fn behind_phis(&self, alloc: Global, b: u32, block: &Block) -> Result<Option<Fault>, Memory>
        requires { IsTold self.now.scene }
        ensures { IfOk result (λ r. r ≡ or_else (spec.steps_of_walk self.now b (length block.now.phis) (map InstAt block.now.insts)) (spec.steps_of_walk self.now b (length block.now.phis + length block.now.insts) (TermAt block.now.term ∷ []))) }
    {
        let phis = block.phis.as_slice().len();
        let insts = block.insts.as_slice();
        match self.insts_fault(b, phis as u64, insts) {
            Some(found) => Ok(Some(found)),
            None => self.term_fault(alloc, b, (phis + insts.len()) as u64, &block.term),
        }
    }

    /// The first fault of block `b`, where these are the edges into it.
    fn block_fault(
        &self,
        alloc: Global,
        b: u32,
        into: &[(u32, u32)],
        block: &Block,
    ) -> Result<Option<Fault>, Memory>
        requires told { IsTold self.now.scene }
        requires into { LeadInto (blocks_of self.now.scene.function.now) b into.now }
        ensures { IfOk result (λ r. r ≡ spec.steps_of_walk self.now b 0 (steps_of_block block.now)) }
    {
        match self.phis_fault(alloc, b, into, 0, block.phis.as_slice())? {
            Some(found) => Ok(Some(found)),
            None => self.behind_phis(alloc, b, block),
        }
    }

    /// The first fault of the blocks from number `b` on, where these are the edges into them.
    fn blocks_fault(
        &self,
        alloc: Global,
        mut b: u32,
        mut arcs: &[(u32, u32)],
        mut blocks: &[Block],
    ) -> Result<Option<Fault>, Memory>
        requires told { IsTold self.now.scene }
        requires left { AreLeft (blocks_of self.now.scene.function.now) b arcs.now }
        requires room { b + length blocks.now < 2 ^ 32 }
        ensures { IfOk result (λ r. r ≡ spec.blocks_of_walk self.now b blocks.entry.now) }
    {
        while let [block, rest @ ..] = blocks {
            let (into, others) = split(b, arcs);
            if let Some(found) = self.block_fault(alloc, b, into, block)? {
                return Ok(Some(found));
            }
            arcs = others;
            b += 1;
            blocks = rest;
        }
        Ok(None)
    }

    fn body_fault(&self, alloc: Global, blocks: &Blocks) -> Result<Option<Fault>, Memory>
        requires told { IsTold self.now.scene }
        requires own { blocks.now ≡ blocks_of self.now.scene.function.now }
        requires few { are_few blocks.now ≡ true }
        ensures { IfOk result (λ r. r ≡ spec.blocks_of_walk self.now 0 blocks.now) }
    {
        let arcs = arcs(alloc, blocks.as_slice())?;
        self.blocks_fault(alloc, 0, arcs.as_slice(), blocks.as_slice())
    }

    fn in_body(&self, alloc: Global) -> Result<Option<Fault>, Memory>
        requires told { IsTold self.now.scene }
        requires few { are_few (blocks_of self.now.scene.function.now) ≡ true }
        ensures { IfOk result (λ r. r ≡ spec.blocks_of_walk self.now 0 (blocks_of self.now.scene.function.now)) }
    {
        match &self.scene.function.blocks {
            Some(blocks) => self.body_fault(alloc, blocks),
            None => Ok(None),
        }
    }

    /// The first fault of the function and of what is in it.
    fn function_fault(&self, alloc: Global) -> Result<Option<Fault>, Memory>
        requires told { IsTold self.now.scene }
        requires few { are_few (blocks_of self.now.scene.function.now) ≡ true }
        ensures { IfOk result (λ r. r ≡ spec.function_fault self.now.scene.tree.now self.now.required self.now.number.0 self.now.scene.function.now) }
    {
        if body_has_own_name(self.scene.function) {
            self.in_body(alloc)
        } else {
            Ok(Some((Spot::Func(self.number), TypeCode::ReservedName)))
        }
    }
}

/// A module with the types of its functions, and the numbers that qubits and results have to be below.
#[derive(Clone, Copy)]
pub(crate) struct Tree<'a> {
    pub(crate) module: &'a Module,
    pub(crate) signatures: &'a [Signature],
    pub(crate) required: Option<Required>,
}

impl<'a> Tree<'a> {
    fn function_fault(
        &self,
        alloc: Global,
        g: u32,
        function: &Function,
    ) -> Result<Option<Fault>, Memory>
        requires told { self.now.signatures.now ≡ map signature_of self.now.module.now.funcs }
        requires few { are_few (blocks_of function.now) ≡ true }
        ensures { IfOk result (λ r. r ≡ spec.function_fault self.now.module.now self.now.required g function.now) }
    {
        let walk = Walk {
            scene: Scene {
                tree: self.module,
                signatures: self.signatures,
                function,
            },
            number: FuncId(g),
            required: self.required,
        };
        walk.function_fault(alloc)
    }

    /// The first fault of these functions, which are numbered from `g` on.
    pub(crate) fn functions_fault(
        &self,
        alloc: Global,
        mut g: u32,
        mut funcs: &[Function],
    ) -> Result<Option<Fault>, Memory>
        requires told { self.now.signatures.now ≡ map signature_of self.now.module.now.funcs }
        requires few { list_all (λ f. are_few (blocks_of f)) funcs.now ≡ true }
        requires room { g + length funcs.now < 2 ^ 32 }
        ensures { IfOk result (λ r. r ≡ spec.functions_fault self.now.module.now self.now.required g funcs.entry.now) }
    {
        while let [function, rest @ ..] = funcs {
            if let Some(found) = self.function_fault(alloc, g, function)? {
                return Ok(Some(found));
            }
            g += 1;
            funcs = rest;
        }
        Ok(None)
    }
}
