//! Builds the flow of functions of given sizes and asks it at each of their points, to be timed.
//!
//! Each line of standard input has three numbers: the blocks of a function, the instructions of each
//! block, and how many more names the first block defines and the last one uses. The function is a
//! chain of blocks in which each instruction adds the name before it and the name 0. The line that is
//! written has the three numbers and at how many points one of these two names is live.
#![tactic(auto)]

use ir_module::{
    Attrs, Block, Blocks, Function, Functions, Inst, InstKind, Insts, Locals, Module, Operand,
    Phis, Point, Term,
};
use ir_values::{BinOp, BlockId, Conv, Flags, FuncId, LocalId, Memory, Name, Seq, Ty, Width};
use name_flow::Flow;
use std::alloc::Global;
use std::io;

/// The name that instruction `i` of block `b` defines.
fn defined(n: u32, b: u32, i: u32) -> LocalId {
    LocalId(
        u64::from(b)
            .wrapping_mul(u64::from(n))
            .wrapping_add(u64::from(i))
            .wrapping_add(1),
    )
}

fn sum(n: u32, b: u32, i: u32) -> Inst {
    let flags = Flags {
        nuw: false,
        nsw: false,
        exact: false,
    };
    let name = defined(n, b, i);
    let before = Operand::Local(LocalId(name.0.saturating_sub(1)));
    Inst {
        result: Some(name),
        what: InstKind::Binary(
            BinOp::Add,
            flags,
            Ty::Int(Width::W64),
            before,
            Operand::Local(LocalId(0)),
        ),
    }
}

/// The sizes of a function: blocks, instructions of each, and names that live over all blocks.
#[derive(Clone, Copy)]
struct Sizes {
    blocks: u32,
    insts: u32,
    names: u32,
}

/// A name that the first block defines and the last one uses.
fn kept(i: u32) -> LocalId {
    LocalId(u64::from(i).wrapping_add(1 << 40))
}

/// Adds `names` instructions that define the kept names, or use them.
fn push_kept(insts: &mut Insts, names: u32, uses: bool) -> Result<(), Memory> {
    for i in 0..names {
        let mut inst = sum(0, 0, 0);
        if uses {
            inst.what = InstKind::Convert(
                Conv::ZExt,
                Ty::Int(Width::W32),
                Operand::Local(kept(i)),
                Ty::Int(Width::W64),
            );
        }
        inst.result = Some(if uses { LocalId(1 << 41) } else { kept(i) });
        insts.push(inst)?;
    }
    Ok(())
}

fn block(alloc: Global, sizes: Sizes, b: u32) -> Result<Block, Memory> {
    let mut insts = Insts::new(alloc);
    let last = b.saturating_add(1) == sizes.blocks;
    if b == 0 {
        push_kept(&mut insts, sizes.names, false)?;
    }
    for i in 0..sizes.insts {
        insts.push(sum(sizes.insts, b, i))?;
    }
    if last {
        push_kept(&mut insts, sizes.names, true)?;
    }
    Ok(Block {
        name: Name::Number(b),
        phis: Phis::new(alloc),
        insts,
        term: if last {
            Term::RetVoid
        } else {
            Term::Br(BlockId(b.saturating_add(1)))
        },
    })
}

fn blocks(alloc: Global, sizes: Sizes) -> Result<Blocks, Memory> {
    let mut blocks = Blocks::new(alloc);
    for b in 0..sizes.blocks {
        blocks.push(block(alloc, sizes, b)?)?;
    }
    Ok(blocks)
}

fn flow_of(alloc: Global, blocks: Blocks) -> Result<Flow, Memory> {
    let mut funcs = Functions::new(alloc);
    funcs.push(Function {
        name: Name::Number(0),
        ret: Ty::Void,
        params: 0,
        locals: Locals::new(alloc),
        attrs: Attrs::new(alloc),
        blocks: Some(blocks),
    })?;
    let module = Module {
        globals: Seq::new(alloc),
        funcs,
        flags: Seq::new(alloc),
    };
    Flow::build(alloc, &module, FuncId(0))
}

/// At how many points of block `b` the name 0 or the name before the block's own is live.
fn live_in_block(flow: &Flow, n: u32, b: u32) -> u64 {
    let mut live = 0u64;
    for i in 0..n {
        let p = Point {
            func: FuncId(0),
            block: BlockId(b),
            index: u64::from(i),
        };
        if flow.live_at(p, LocalId(0)) || flow.live_at(p, defined(n, b, 0)) {
            live = live.saturating_add(1);
        }
    }
    live
}

fn live_points(alloc: Global, sizes: Sizes) -> Result<u64, Memory> {
    let flow = flow_of(alloc, blocks(alloc, sizes)?)?;
    let mut live = 0u64;
    for b in 0..sizes.blocks {
        live = live.saturating_add(live_in_block(&flow, sizes.insts, b));
    }
    Ok(live)
}

fn parse_sizes(line: &str) -> Option<Sizes> {
    let (blocks, rest) = line.split_once(' ')?;
    let (insts, names) = rest.split_once(' ')?;
    Some(Sizes {
        blocks: blocks.parse::<u32>().ok()?,
        insts: insts.parse::<u32>().ok()?,
        names: names.parse::<u32>().ok()?,
    })
}

fn main(rt: HostRuntime) -> io::Result<()> {
    for line in rt.lines(rt.alloc()) {
        let line = line?;
        let line = line.as_str();
        let Some(sizes) = parse_sizes(line) else {
            println!(rt; "three numbers are wanted")?;
            continue;
        };
        match live_points(rt.alloc(), sizes) {
            Ok(live) => println!(rt; "{line} {live}")?,
            Err(Memory) => println!(rt; "out of memory")?,
        }
    }
    Ok(())
}
