//! The edges of a function by the blocks that they lead to.
ghost use Rattle.std.specs.Prelude.{◌≡◌, ◌+◌, ◌^◌, ◌<◌, ◌++◌, length, OnOk, IfOk};
ghost use Rattle.type_check.specs.code.Arcs as spec;

use ir_module::{Block, Edges, successors};
use ir_values::{Memory, Seq};
use std::alloc::Global;

/// The block that an edge leads to, and the one that it comes from.
pub(crate) type Arcs = Seq<(u32, u32)>;

fn push_arcs_from(arcs: &mut Arcs, n: u32, edges: &Edges) -> Result<(), Memory>
    ensures { OnOk result (arcs.new ≡ arcs.old ++ spec.arcs_from n edges.now) }
{
    for i in 0..edges.len() {
        arcs.push((edges.at(i).0, n))?;
    }
    Ok(())
}

/// Adds the edges that leave the blocks from number `n` on.
fn push_arcs(arcs: &mut Arcs, mut n: u32, mut blocks: &[Block]) -> Result<(), Memory>
    requires { n + length blocks.now < 2 ^ 32 }
    ensures { OnOk result (arcs.new ≡ arcs.old ++ spec.arcs n blocks.entry.now) }
{
    while let [block, rest @ ..] = blocks {
        push_arcs_from(arcs, n, &successors(&block.term))?;
        n += 1;
        blocks = rest;
    }
    Ok(())
}

/// The edges between the blocks of a function, in order.
pub(crate) fn arcs(alloc: Global, blocks: &[Block]) -> Result<Arcs, Memory>
    requires { length blocks.now < 2 ^ 32 }
    ensures { IfOk result (λ sorted. spec.SortsArcs blocks.now sorted) }
{
    let mut arcs = Arcs::new(alloc);
    push_arcs(&mut arcs, 0, blocks)?;
    let mut items = arcs.into_vec();
    items.sort_unstable();
    Ok(Arcs::from_vec(items))
}

/// How many edges to the block `b` the list begins with.
fn lead(b: u32, mut arcs: &[(u32, u32)]) -> usize
    ensures { result ≡ spec.lead b arcs.entry.now }
{
    let mut count = 0usize;
    while let [arc, rest @ ..] = arcs {
        if arc.0 != b {
            return count;
        }
        count += 1;
        arcs = rest;
    }
    count
}

/// The edges to the block `b` that the list begins with, and the others.
pub(crate) fn split(b: u32, arcs: &[(u32, u32)]) -> (&[(u32, u32)], &[(u32, u32)])
    ensures front { result.0.now ≡ spec.front b arcs.now }
    ensures others { result.1.now ≡ spec.others b arcs.now }
{
    arcs.split_at(lead(b, arcs))
}
