use super::*;
use crate::flow::Flow;
use ir_module::{
    Attrs, Block, Blocks, CallArgs, Callee, Function, Functions, Inst, InstKind, Insts, Locals,
    Module, Operand, Phi, PhiEntries, Phis, Point, Term,
};
use ir_values::{
    BinOp, BlockId, Bytes, Flags, FuncId, LocalId, Memory, Name, Seq, Ty, Value, Width,
};
use std::alloc::Global;
use std::process::Abort;
use std::test::Fail;

/// The flow of a function of these blocks.
fn flow_of(alloc: Global, blocks: Blocks) -> Result<Flow, Memory> {
    let mut funcs = Functions::new(alloc);
    funcs.push(Function {
        name: Name::Number(0),
        ret: Ty::Void,
        params: 0,
        locals: Locals::new(alloc),
        attrs: Attrs::new(alloc),
        blocks: Some(blocks),
    })?;
    let module = Module {
        globals: Seq::new(alloc),
        funcs,
        flags: Seq::new(alloc),
    };
    Flow::build(alloc, &module, FuncId(0))
}

fn block(phis: Phis, insts: Insts, term: Term) -> Block {
    Block {
        name: Name::Number(0),
        phis,
        insts,
        term,
    }
}

/// A block of a terminator alone.
fn bare(alloc: Global, term: Term) -> Block {
    block(Phis::new(alloc), Insts::new(alloc), term)
}

fn local(x: u64) -> Operand {
    Operand::Local(LocalId(x))
}

/// A phi of two entries.
fn phi(alloc: Global, defined: u64, a: (Operand, u32), b: (Operand, u32)) -> Result<Phis, Memory> {
    let mut entries = PhiEntries::new(alloc);
    entries.push((a.0, BlockId(a.1)))?;
    entries.push((b.0, BlockId(b.1)))?;
    let mut phis = Phis::new(alloc);
    phis.push(Phi {
        result: LocalId(defined),
        entries,
    })?;
    Ok(phis)
}

/// The sum of two local names.
fn sum(defined: u64, x: u64, y: u64) -> Inst {
    let flags = Flags {
        nuw: false,
        nsw: false,
        exact: false,
    };
    Inst {
        result: Some(LocalId(defined)),
        what: InstKind::Binary(BinOp::Add, flags, Ty::Int(Width::W64), local(x), local(y)),
    }
}

/// Each row says whether the name is live: block, index, name, answer.
fn expect(rt: &impl Abort, flow: &Flow, rows: &[(u32, u64, u64, bool)]) {
    for row in rows {
        let p = Point {
            func: FuncId(0),
            block: BlockId(row.0),
            index: row.1,
        };
        assert_eq!(rt; flow.live_at(p, LocalId(row.2)), row.3);
    }
}

#[test]
fn a_loop_with_a_phi_of_its_own_result(rt: HostRuntime) -> Result<(), Fail> {
    let alloc = rt.alloc();
    let mut blocks = Blocks::new(alloc);
    blocks.push(bare(alloc, Term::Br(BlockId(1))))?;
    let phis = phi(alloc, 1, (Operand::Const(Value::Zero), 0), (local(1), 1))?;
    let term = Term::CondBr(local(0), BlockId(1), BlockId(2));
    blocks.push(block(phis, Insts::new(alloc), term))?;
    blocks.push(bare(alloc, Term::RetVoid))?;
    let flow = flow_of(alloc, blocks)?;
    expect(
        &rt,
        &flow,
        &[
            (0, 0, 0, true),
            (0, 0, 1, false),
            (1, 0, 1, false),
            (1, 1, 1, true),
            (1, 1, 0, true),
            (1, 2, 0, false),
            (2, 0, 0, false),
            (3, 0, 0, false),
        ],
    );
    Ok(())
}

#[test]
fn a_name_that_one_edge_alone_takes(rt: HostRuntime) -> Result<(), Fail> {
    let alloc = rt.alloc();
    let mut blocks = Blocks::new(alloc);
    blocks.push(bare(alloc, Term::CondBr(local(0), BlockId(1), BlockId(2))))?;
    blocks.push(bare(alloc, Term::Br(BlockId(3))))?;
    blocks.push(bare(alloc, Term::Br(BlockId(3))))?;
    let phis = phi(alloc, 2, (local(1), 1), (Operand::Const(Value::Zero), 2))?;
    blocks.push(block(phis, Insts::new(alloc), Term::RetVoid))?;
    let flow = flow_of(alloc, blocks)?;
    expect(
        &rt,
        &flow,
        &[
            (0, 0, 1, true),
            (1, 0, 1, true),
            (2, 0, 1, false),
            (3, 0, 1, false),
        ],
    );
    Ok(())
}

#[test]
fn definitions_and_blocks_that_nothing_reaches(rt: HostRuntime) -> Result<(), Fail> {
    let alloc = rt.alloc();
    let mut insts = Insts::new(alloc);
    insts.push(sum(1, 0, 0))?;
    insts.push(sum(1, 1, 1))?;
    insts.push(sum(0, 1, 1))?;
    let mut blocks = Blocks::new(alloc);
    blocks.push(block(Phis::new(alloc), insts, Term::Br(BlockId(1))))?;
    blocks.push(bare(alloc, Term::Ret(Ty::Int(Width::W64), local(0))))?;
    // an edge from a block without an edge into it, and a phi entry without an edge
    let phis = phi(alloc, 3, (local(4), 0), (local(5), 1))?;
    let mut calls = Insts::new(alloc);
    let mut args = CallArgs::new(alloc);
    args.push((Ty::Int(Width::W64), local(7)))?;
    calls.push(Inst {
        result: None,
        what: InstKind::Call(Ty::Void, Callee::Local(LocalId(6)), args),
    })?;
    blocks.push(block(phis, calls, Term::Br(BlockId(1))))?;
    let flow = flow_of(alloc, blocks)?;
    expect(
        &rt,
        &flow,
        &[
            (0, 0, 0, true),
            (0, 0, 1, false),
            (0, 1, 1, true),
            (0, 1, 0, false),
            (0, 2, 1, true),
            (0, 3, 1, false),
            (0, 3, 0, true),
            (1, 0, 0, true),
            (2, 0, 0, true),
            (2, 0, 6, true),
            (2, 1, 7, true),
            (2, 2, 6, false),
            (0, 3, 4, false),
            (1, 0, 5, false),
        ],
    );
    Ok(())
}
