//! The uses and the definitions of local names in a function, and its edges.
ghost use Rattle.std.specs.Prelude.{◌≡◌, ◌+◌, ◌^◌, ◌<◌, ◌++◌, length, slice_get, IfOk, OnOk, option_copied, flat_map, map};
ghost use Rattle.ir_module.specs.Operands.{callee_operand};
ghost use Rattle.name_flow.specs.code.Marks as spec;
ghost use Rattle.name_flow.specs.Uses.{reads, inst_reads, term_reads};

use crate::triples::Triples;
use ir_module::{Block, Callee, Edges, Inst, InstKind, Operand, Phi, Term, successors};
use ir_values::{BlockId, Memory, Seq, Ty};
use std::alloc::Global;

/// Uses or definitions: block, name and index. Edges: block, 0 and predecessor.
pub(crate) type Marks = Seq<(u64, u64, u64)>;

fn push_operand(marks: &mut Marks, b: u64, i: u64, a: &Operand) -> Result<(), Memory>
    ensures { OnOk result (marks.new ≡ marks.old ++ spec.marks b i (reads a.now)) }
{
    match a {
        Operand::Const(_) => Ok(()),
        Operand::Local(x) => marks.push((b, x.0, i)),
    }
}

fn push_callee(marks: &mut Marks, b: u64, i: u64, callee: &Callee) -> Result<(), Memory>
    ensures { OnOk result (marks.new ≡ marks.old ++ spec.marks b i (reads (callee_operand callee.now))) }
{
    match callee {
        Callee::Func(_) => Ok(()),
        Callee::Local(x) => marks.push((b, x.0, i)),
    }
}

fn push_args(marks: &mut Marks, b: u64, i: u64, mut args: &[(Ty, Operand)]) -> Result<(), Memory>
    ensures { OnOk result (marks.new ≡ marks.old ++ spec.marks b i (flat_map reads (map (λ a. a.1) args.entry.now))) }
{
    while let [(_, a), rest @ ..] = args {
        push_operand(marks, b, i, a)?;
        args = rest;
    }
    Ok(())
}

fn push_inst(marks: &mut Marks, b: u64, i: u64, what: &InstKind) -> Result<(), Memory>
    ensures { OnOk result (marks.new ≡ marks.old ++ spec.marks b i (inst_reads what.now)) }
{
    match what {
        InstKind::Binary(_, _, _, x, y) | InstKind::Icmp(_, _, x, y) => {
            push_operand(marks, b, i, x)?;
            push_operand(marks, b, i, y)
        }
        InstKind::Convert(_, _, x, _) => push_operand(marks, b, i, x),
        InstKind::Select(c, _, x, _, y) => {
            push_operand(marks, b, i, c)?;
            push_operand(marks, b, i, x)?;
            push_operand(marks, b, i, y)
        }
        InstKind::Call(_, callee, args) => {
            push_callee(marks, b, i, callee)?;
            push_args(marks, b, i, args.as_slice())
        }
    }
}

fn push_term(marks: &mut Marks, b: u64, i: u64, term: &Term) -> Result<(), Memory>
    ensures { OnOk result (marks.new ≡ marks.old ++ spec.marks b i (term_reads term.now)) }
{
    match term {
        Term::RetVoid | Term::Br(_) => Ok(()),
        Term::Ret(_, a) | Term::CondBr(a, _, _) | Term::Switch(_, a, _, _) => push_operand(
            marks, b, i, a,
        ),
    }
}

fn push_insts(marks: &mut Marks, b: u64, mut i: u64, mut insts: &[Inst]) -> Result<(), Memory>
    requires { i + length insts.now < 2 ^ 64 }
    ensures { OnOk result (marks.new ≡ marks.old ++ spec.gather (spec.inst_used b) i insts.entry.now) }
{
    while let [inst, rest @ ..] = insts {
        push_inst(marks, b, i, &inst.what)?;
        i += 1;
        insts = rest;
    }
    Ok(())
}

/// The index of a block's terminator.
pub(crate) fn end_index(block: &Block) -> u64
    ensures { result ≡ spec.end_index block.now }
{
    (block.phis.as_slice().len() + block.insts.as_slice().len()) as u64
}

fn push_uses_in(marks: &mut Marks, b: u64, block: &Block) -> Result<(), Memory>
    ensures { OnOk result (marks.new ≡ marks.old ++ spec.block_used b block.now) }
{
    let end = end_index(block);
    push_insts(marks, b, block.phis.len() as u64, block.insts.as_slice())?;
    push_term(marks, b, end, &block.term)
}

/// Adds what the instructions and terminators of the blocks from number `b` on use.
pub(crate) fn push_uses(marks: &mut Marks, mut b: u64, mut blocks: &[Block]) -> Result<(), Memory>
    requires { b + length blocks.now < 2 ^ 64 }
    ensures { OnOk result (marks.new ≡ marks.old ++ spec.gather spec.block_used b blocks.entry.now) }
{
    while let [block, rest @ ..] = blocks {
        push_uses_in(marks, b, block)?;
        b += 1;
        blocks = rest;
    }
    Ok(())
}

fn push_phi_results(marks: &mut Marks, b: u64, mut i: u64, mut phis: &[Phi]) -> Result<(), Memory>
    requires { i + length phis.now < 2 ^ 64 }
    ensures { OnOk result (marks.new ≡ marks.old ++ spec.gather (spec.phi_defined b) i phis.entry.now) }
{
    while let [phi, rest @ ..] = phis {
        marks.push((b, phi.result.0, i))?;
        i += 1;
        phis = rest;
    }
    Ok(())
}

fn push_results(marks: &mut Marks, b: u64, mut i: u64, mut insts: &[Inst]) -> Result<(), Memory>
    requires { i + length insts.now < 2 ^ 64 }
    ensures { OnOk result (marks.new ≡ marks.old ++ spec.gather (spec.inst_defined b) i insts.entry.now) }
{
    while let [inst, rest @ ..] = insts {
        if let Some(x) = inst.result {
            marks.push((b, x.0, i))?;
        }
        i += 1;
        insts = rest;
    }
    Ok(())
}

fn push_definitions_in(marks: &mut Marks, b: u64, block: &Block) -> Result<(), Memory>
    ensures { OnOk result (marks.new ≡ marks.old ++ spec.block_defined b block.now) }
{
    push_phi_results(marks, b, 0, block.phis.as_slice())?;
    push_results(marks, b, block.phis.len() as u64, block.insts.as_slice())
}

/// Adds what the blocks from number `b` on define.
pub(crate) fn push_definitions(
    marks: &mut Marks,
    mut b: u64,
    mut blocks: &[Block],
) -> Result<(), Memory>
    requires { b + length blocks.now < 2 ^ 64 }
    ensures { OnOk result (marks.new ≡ marks.old ++ spec.gather spec.block_defined b blocks.entry.now) }
{
    while let [block, rest @ ..] = blocks {
        push_definitions_in(marks, b, block)?;
        b += 1;
        blocks = rest;
    }
    Ok(())
}

fn push_edges_of(marks: &mut Marks, b: u64, edges: &Edges) -> Result<(), Memory>
    ensures { OnOk result (marks.new ≡ marks.old ++ spec.edges_into b edges.now) }
{
    for i in 0..edges.len() {
        marks.push((u64::from(edges.at(i).0), 0, b))?;
    }
    Ok(())
}

/// Adds the edges that leave the blocks from number `b` on.
pub(crate) fn push_edges(marks: &mut Marks, mut b: u64, mut blocks: &[Block]) -> Result<(), Memory>
    requires { b + length blocks.now < 2 ^ 64 }
    ensures { OnOk result (marks.new ≡ marks.old ++ spec.gather spec.block_edges b blocks.entry.now) }
{
    while let [block, rest @ ..] = blocks {
        push_edges_of(marks, b, &successors(&block.term))?;
        b += 1;
        blocks = rest;
    }
    Ok(())
}

fn block_at(blocks: &[Block], b: u64) -> Option<&Block>
    ensures { option_copied result ≡ slice_get blocks.now b }
{
    blocks.get(b as usize)
}

fn push_entry(
    marks: &mut Marks,
    blocks: &[Block],
    edges: &Triples,
    b: u64,
    entry: &(Operand, BlockId),
) -> Result<(), Memory>
    ensures { OnOk result (marks.new ≡ marks.old ++ spec.entry_used blocks.now edges.now b entry.now) }
{
    let (a, from) = entry;
    let from = u64::from(from.0);
    match block_at(blocks, from) {
        Some(block) => {
            if edges.holds(b, 0, from) {
                return push_operand(marks, from, end_index(block), a);
            }
            Ok(())
        }
        None => Ok(()),
    }
}

fn push_phi(
    marks: &mut Marks,
    blocks: &[Block],
    edges: &Triples,
    b: u64,
    mut entries: &[(Operand, BlockId)],
) -> Result<(), Memory>
    ensures { OnOk result (marks.new ≡ marks.old ++ spec.entries_used blocks.now edges.now b entries.entry.now) }
{
    while let [entry, rest @ ..] = entries {
        push_entry(marks, blocks, edges, b, entry)?;
        entries = rest;
    }
    Ok(())
}

fn push_phis(
    marks: &mut Marks,
    blocks: &[Block],
    edges: &Triples,
    b: u64,
    mut phis: &[Phi],
) -> Result<(), Memory>
    ensures { OnOk result (marks.new ≡ marks.old ++ spec.phis_used blocks.now edges.now b phis.entry.now) }
{
    while let [phi, rest @ ..] = phis {
        push_phi(marks, blocks, edges, b, phi.entries.as_slice())?;
        phis = rest;
    }
    Ok(())
}

/// Adds what the phis of `some`, the blocks from number `b` on, use at the ends of the blocks that
/// their edges come from.
pub(crate) fn push_phi_uses(
    marks: &mut Marks,
    blocks: &[Block],
    edges: &Triples,
    mut b: u64,
    mut some: &[Block],
) -> Result<(), Memory>
    requires { b + length some.now < 2 ^ 64 }
    ensures { OnOk result (marks.new ≡ marks.old ++ spec.gather (spec.block_phis_used blocks.now edges.now) b some.entry.now) }
{
    while let [block, rest @ ..] = some {
        push_phis(marks, blocks, edges, b, block.phis.as_slice())?;
        b += 1;
        some = rest;
    }
    Ok(())
}

/// The indices of the terminators of the blocks.
pub(crate) fn end_indices(alloc: Global, mut blocks: &[Block]) -> Result<Seq<u64>, Memory>
    ensures { IfOk result (λ last. last ≡ map spec.end_index blocks.entry.now) }
{
    let mut last = Seq::new(alloc);
    while let [block, rest @ ..] = blocks {
        last.push(end_index(block))?;
        blocks = rest;
    }
    Ok(last)
}
