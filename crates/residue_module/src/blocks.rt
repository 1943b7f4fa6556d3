//! The blocks of the printed entry.
ghost use Rattle.std.specs.Prelude.{◌≡◌, ◌<◌, ◌+◌, ◌^◌, ◌∷◌, [], ◌++◌, true, length, IfOk, OnOk};
ghost use Rattle.std.specs.List.{list_all};
ghost use Rattle.std.specs.Vec.Iter.{into_iter_items};
ghost use Rattle.residue.specs.Instructions.{print_items, print_tail};
ghost use Rattle.residue.specs.Printed as spec;
ghost use Rattle.residue.specs.Scopes.{items_of, tail_uses};
ghost use Rattle.residue_module.specs.code.Blocks as code;
ghost use Rattle.residue_module.specs.code.Bodies.{phase_number};
ghost use Rattle.residue_module.specs.code.Edges.{phis_from, rows_from};
ghost use Rattle.residue_module.specs.code.Scenes.{HasFew, are_small, args_small, at, items_small, tail_small};

use crate::body::Body;
use crate::phases::Phase;
use crate::printer::Printer;
use crate::rows::{Row, next_row};
use crate::texts::name_of_block;
use called_functions::{NameSet, text};
use ir_module::{Block, Blocks, Callee, Inst, InstKind, Insts, Operand, Phis, Term};
use ir_values::{BlockId, FuncId, Memory, Name, Seq, Ty, Value};
use residue::{Part, Tail};
use std::alloc::Global;
use std::vec::IntoIter;

/// The first instruction of the entry.
fn initialize_call(alloc: Global) -> Result<Inst, Memory>
    ensures { IfOk result (λ i. i ≡ spec.initialize_call) }
{
    let mut args = Seq::new(alloc);
    args.push((Ty::Text, Operand::Const(Value::NoLabel)))?;
    Ok(Inst {
        result: None,
        what: InstKind::Call(Ty::Void, Callee::Func(FuncId(1)), args),
    })
}

/// What the block of a part begins with.
fn beginning(alloc: Global, number: u32) -> Result<Insts, Memory>
    ensures { IfOk result (λ l. l ≡ spec.beginning number) }
{
    let mut insts = Seq::new(alloc);
    if number == 0 {
        insts.push(initialize_call(alloc)?)?;
    }
    Ok(insts)
}

/// A block of this name without phis.
fn block(alloc: Global, name: &[u8], insts: Insts, term: Term) -> Result<Block, Memory>
    ensures { IfOk result (λ b. b ≡ spec.block name.now [] insts term) }
{
    Ok(Block {
        name: Name::Text(text(alloc, name)?),
        phis: Seq::new(alloc),
        insts,
        term,
    })
}

impl<'a> Printer<'a> {
    /// What stands in the block of a part behind its phis, where this is the number of the first local name
    /// that the lines define.
    fn body(&self, alloc: Global, number: u32, next: u64, part: &Part) -> Result<Body, Memory>
        requires few { HasFew self.now }
        requires room { next + length (spec.names_of_items (items_of part.now.lines)) < 2 ^ 64 }
        requires small { items_small (at self.now) part.now ≡ true }
        ensures insts { IfOk result (λ b. b.insts ≡ spec.beginning number ++ print_items (at self.now) next (items_of part.now.lines)) }
        ensures next { IfOk result (λ b. b.next ≡ next + length (spec.names_of_items (items_of part.now.lines))) }
    {
        let mut body = Body {
            insts: beginning(alloc, number)?,
            next,
        };
        self.lines(alloc, &mut body, part.lines.as_slice())?;
        Ok(body)
    }

    /// The block of a part.
    fn part_block(
        &self,
        alloc: Global,
        number: u32,
        phis: Phis,
        insts: Insts,
        tail: &Tail,
    ) -> Result<Block, Memory>
        requires { are_small (at self.now) (tail_uses tail.now) ≡ true }
        ensures { IfOk result (λ b. b ≡ spec.block (spec.block_name number) phis insts (print_tail (at self.now) tail.now)) }
    {
        let term = self.tail(alloc, tail)?;
        Ok(Block {
            name: name_of_block(alloc, number)?,
            phis,
            insts,
            term,
        })
    }

    /// The block of a part whose local names begin with this number and whose phis have these entries, and
    /// the number of the first local name behind it.
    fn part(
        &self,
        alloc: Global,
        number: u32,
        first: u64,
        row: Row,
        part: &Part,
    ) -> Result<(Block, u64), Memory>
        requires few { HasFew self.now }
        requires entries { length row ≡ length part.now.params }
        requires room { first + length (spec.names_of_part part.now) < 2 ^ 64 }
        requires items { items_small (at self.now) part.now ≡ true }
        requires tail { tail_small (at self.now) part.now ≡ true }
        ensures block { IfOk result (λ r. r.0 ≡ code.part_block (at self.now) number first (phis_from first row) part.now) }
        ensures next { IfOk result (λ r. r.1 ≡ first + length (spec.names_of_part part.now)) }
    {
        let phis = row.into_phis(alloc, first)?;
        let body = self.body(alloc, number, first + part.params.len() as u64, part)?;
        let next = body.next;
        let block = self.part_block(alloc, number, phis, body.into_insts(), &part.tail)?;
        Ok((block, next))
    }

    /// The blocks of parts whose phis have these entries.
    fn part_blocks(
        &self,
        alloc: Global,
        mut rows: IntoIter<Row>,
        mut parts: &[Part],
    ) -> Result<Blocks, Memory>
        requires few { HasFew self.now }
        requires count { length parts.now < 2 ^ 32 }
        requires entries { into_iter_items rows ≡ rows_from (at self.now) (spec.edges_of 0 parts.now) 0 parts.now }
        requires room { length (spec.names_of parts.now) < 2 ^ 64 }
        requires items { list_all (items_small (at self.now)) parts.now ≡ true }
        requires tails { list_all (tail_small (at self.now)) parts.now ≡ true }
        ensures { IfOk result (λ l. l ≡ code.part_blocks (at self.now) (spec.edges_of 0 parts.entry.now) 0 0 parts.entry.now) }
    {
        let mut blocks = Seq::new(alloc);
        let mut number = 0;
        let mut first = 0;
        while let Some((part, rest)) = parts.split_first() {
            let (block, next) = self.part(alloc, number, first, next_row(&mut rows), part)?;
            blocks.push(block)?;
            number += 1;
            first = next;
            parts = rest;
        }
        Ok(blocks)
    }

    /// The blocks for the Adaptive Profile: one for each part.
    pub(crate) fn adaptive_blocks(&self, alloc: Global, parts: &[Part]) -> Result<Blocks, Memory>
        requires few { HasFew self.now }
        requires count { length parts.now < 2 ^ 32 }
        requires room { length (spec.names_of parts.now) < 2 ^ 64 }
        requires items { list_all (items_small (at self.now)) parts.now ≡ true }
        requires tails { list_all (tail_small (at self.now)) parts.now ≡ true }
        requires args { list_all (args_small (at self.now)) parts.now ≡ true }
        ensures { IfOk result (λ l. l ≡ code.part_blocks (at self.now) (spec.edges_of 0 parts.now) 0 0 parts.now) }
    {
        let rows = self.entries(alloc, parts)?;
        self.part_blocks(alloc, rows.into_rows(), parts)
    }

    /// A block of the Base Profile behind the first.
    fn phase_block(
        &self,
        alloc: Global,
        irreversible: &NameSet,
        phase: Phase,
        name: &[u8],
        part: &Part,
        term: Term,
    ) -> Result<Block, Memory>
        requires few { HasFew self.now }
        requires room { length (spec.names_of_items (items_of part.now.lines)) < 2 ^ 64 }
        requires small { items_small (at self.now) part.now ≡ true }
        ensures { IfOk result (λ b. b ≡ spec.block name.now [] (code.phase_insts (at self.now) irreversible.now.keys (phase_number phase) part.now) term) }
    {
        let insts = self.items_in(alloc, irreversible, phase, part.lines.as_slice())?;
        block(alloc, name, insts, term)
    }

    /// The first two of Base's blocks.
    fn first_blocks(
        &self,
        alloc: Global,
        irreversible: &NameSet,
        part: &Part,
    ) -> Result<Blocks, Memory>
        requires few { HasFew self.now }
        requires room { length (spec.names_of_items (items_of part.now.lines)) < 2 ^ 64 }
        requires small { items_small (at self.now) part.now ≡ true }
        ensures { IfOk result (λ l. l ≡ code.first_blocks (at self.now) irreversible.now.keys part.now) }
    {
        let body = Term::Br(BlockId(1));
        let measurements = Term::Br(BlockId(2));
        let mut blocks = Seq::new(alloc);
        blocks.push(block(alloc, b"entry", beginning(alloc, 0)?, body)?)?;
        blocks.push(self.phase_block(
            alloc,
            irreversible,
            Phase::Reversible,
            b"body",
            part,
            measurements,
        )?)?;
        Ok(blocks)
    }

    /// The other two of Base's blocks.
    fn last_blocks(
        &self,
        alloc: Global,
        irreversible: &NameSet,
        part: &Part,
    ) -> Result<Blocks, Memory>
        requires few { HasFew self.now }
        requires room { length (spec.names_of_items (items_of part.now.lines)) < 2 ^ 64 }
        requires items { items_small (at self.now) part.now ≡ true }
        requires tail { tail_small (at self.now) part.now ≡ true }
        ensures { IfOk result (λ l. l ≡ code.last_blocks (at self.now) irreversible.now.keys part.now) }
    {
        let output = Term::Br(BlockId(3));
        let tail = self.tail(alloc, &part.tail)?;
        let mut blocks = Seq::new(alloc);
        blocks.push(self.phase_block(
            alloc,
            irreversible,
            Phase::Irreversible,
            b"measurements",
            part,
            output,
        )?)?;
        blocks.push(self.phase_block(alloc, irreversible, Phase::Records, b"output", part, tail)?)?;
        Ok(blocks)
    }

    /// The blocks for the Base Profile: the items of the part in their order.
    fn blocks_by_phase(
        &self,
        alloc: Global,
        irreversible: &NameSet,
        part: &Part,
    ) -> Result<Blocks, Memory>
        requires few { HasFew self.now }
        requires room { length (spec.names_of_items (items_of part.now.lines)) < 2 ^ 64 }
        requires items { items_small (at self.now) part.now ≡ true }
        requires tail { tail_small (at self.now) part.now ≡ true }
        ensures { IfOk result (λ l. l ≡ code.first_blocks (at self.now) irreversible.now.keys part.now ++ code.last_blocks (at self.now) irreversible.now.keys part.now) }
    {
        let mut blocks = self.first_blocks(alloc, irreversible, part)?;
        blocks.append(self.last_blocks(alloc, irreversible, part)?)?;
        Ok(blocks)
    }

    /// The blocks for the Base Profile: those of the first part.
    pub(crate) fn base_blocks(
        &self,
        alloc: Global,
        irreversible: &NameSet,
        parts: &[Part],
    ) -> Result<Blocks, Memory>
        requires few { HasFew self.now }
        requires room { length (spec.names_of parts.now) < 2 ^ 64 }
        requires items { list_all (items_small (at self.now)) parts.now ≡ true }
        requires tails { list_all (tail_small (at self.now)) parts.now ≡ true }
        ensures { IfOk result (λ l. l ≡ code.phase_blocks (at self.now) irreversible.now.keys parts.now) }
    {
        match parts {
            [part, ..] => self.blocks_by_phase(alloc, irreversible, part),
            [] => Ok(Seq::new(alloc)),
        }
    }
}
