//! The graphs of blocks and of calls, and returns.
ghost use Rattle.std.specs.Prelude.{◌≡◌, ◌++◌, map, flat_map, OnOk, IfOk};
ghost use Rattle.ir_module.specs.Edges.{edges};
ghost use Rattle.ir_module.specs.Steps.{steps_of};
ghost use Rattle.ir_module.specs.Tree.{blocks_of};
ghost use Rattle.graph_cycles.specs.Cycles.{TellsCycles};
ghost use Rattle.profile_rules.specs.Adaptive.{block_graph, callee_number, number_called, number_called_by};
ghost use Rattle.profile_rules.specs.Calls.{call_of_kind};
ghost use Rattle.adaptive_profile.specs.code.Graphs as spec;
ghost use Rattle.adaptive_profile.specs.code.Returns.{first_return};

use crate::kinds::is_return;
use findings::call_of;
use graph_cycles::{Graph, on_cycle};
use ir_module::{Block, Callee, Edges, Function, Functions, Inst, successors};
use ir_values::{Memory, Seq};
use std::alloc::Global;

/// The blocks of a function, and none of a declaration.
fn body(f: &Function) -> &[Block]
    ensures { result.now ≡ blocks_of f.now }
{
    match &f.blocks {
        Some(blocks) => blocks.as_slice(),
        None => &[],
    }
}

fn numbers(alloc: Global, edges: &Edges) -> Result<Seq<usize>, Memory>
    ensures { IfOk result (λ numbers. numbers ≡ spec.numbers edges.now) }
{
    let mut numbers = Seq::new(alloc);
    for i in 0..edges.len() {
        numbers.push(edges.at(i).0 as usize)?;
    }
    Ok(numbers)
}

/// The edges between these blocks.
fn graph_of(alloc: Global, mut blocks: &[Block]) -> Result<Graph, Memory>
    ensures { IfOk result (λ graph. graph ≡ spec.graph_of blocks.entry.now) }
{
    let mut graph = Graph::new(alloc);
    while let [block, rest @ ..] = blocks {
        graph.push(numbers(alloc, &successors(&block.term))?)?;
        blocks = rest;
    }
    Ok(graph)
}

/// Of each block of a function whether it lies on a cycle.
fn cyclic_blocks(alloc: Global, f: &Function) -> Result<Seq<bool>, Memory>
    ensures { IfOk result (TellsCycles (block_graph f.now)) }
{
    let graph = graph_of(alloc, body(f))?;
    on_cycle(alloc, &graph)
}

/// Of each function and each of its blocks whether the block lies on a cycle.
pub(crate) fn cyclic(alloc: Global, funcs: &Functions) -> Result<Seq<Seq<bool>>, Memory>
    ensures { IfOk result (spec.TellLoops funcs.now) }
{
    let mut rows = Seq::new(alloc);
    for i in 0..funcs.len() {
        let row = cyclic_blocks(alloc, funcs.at(i))?;
        rows.push(row)?;
    }
    Ok(rows)
}

fn push_callee(callees: &mut Seq<usize>, callee: Callee) -> Result<(), Memory>
    ensures { OnOk result (callees.new ≡ callees.old ++ callee_number callee) }
{
    match callee {
        Callee::Func(g) => callees.push(g.0 as usize),
        Callee::Local(_) => Ok(()),
    }
}

fn push_call(callees: &mut Seq<usize>, inst: &Inst) -> Result<(), Memory>
    ensures { OnOk result (callees.new ≡ callees.old ++ number_called_by (call_of_kind inst.now.what)) }
{
    match call_of(inst) {
        Some(call) => push_callee(callees, call.callee),
        None => Ok(()),
    }
}

fn push_insts(callees: &mut Seq<usize>, mut insts: &[Inst]) -> Result<(), Memory>
    ensures { OnOk result (callees.new ≡ callees.old ++ spec.called_by insts.entry.now) }
{
    while let [inst, rest @ ..] = insts {
        push_call(callees, inst)?;
        insts = rest;
    }
    Ok(())
}

fn push_blocks(callees: &mut Seq<usize>, mut blocks: &[Block]) -> Result<(), Memory>
    ensures { OnOk result (callees.new ≡ callees.old ++ spec.called_in blocks.entry.now) }
{
    while let [block, rest @ ..] = blocks {
        push_insts(callees, block.insts.as_slice())?;
        blocks = rest;
    }
    Ok(())
}

/// The functions that a function calls by their names, in the order of its text.
#[tactic(auto, using(crate::proofs::Called::called))]
fn callees(alloc: Global, f: &Function) -> Result<Seq<usize>, Memory>
    ensures { IfOk result (λ callees. callees ≡ flat_map number_called (steps_of f.now)) }
{
    let mut callees = Seq::new(alloc);
    push_blocks(&mut callees, body(f))?;
    Ok(callees)
}

/// The functions of a module and their calls by name.
pub(crate) fn call_graph(alloc: Global, mut funcs: &[Function]) -> Result<Graph, Memory>
    ensures { IfOk result (λ graph. graph ≡ map (λ f. flat_map number_called (steps_of f)) funcs.entry.now) }
{
    let mut graph = Graph::new(alloc);
    while let [f, rest @ ..] = funcs {
        graph.push(callees(alloc, f)?)?;
        funcs = rest;
    }
    Ok(graph)
}

fn first_return(mut blocks: &[Block]) -> usize
    ensures { result ≡ first_return blocks.entry.now }
{
    let mut number = 0usize;
    while let [block, rest @ ..] = blocks {
        if is_return(&block.term) {
            return number;
        }
        number += 1;
        blocks = rest;
    }
    number
}

/// Of each function the first block that ends in a return, or the number of its blocks.
pub(crate) fn first_returns(alloc: Global, mut funcs: &[Function]) -> Result<Seq<usize>, Memory>
    ensures { IfOk result (λ firsts. firsts ≡ map (λ f. first_return (blocks_of f)) funcs.entry.now) }
{
    let mut firsts = Seq::new(alloc);
    while let [f, rest @ ..] = funcs {
        firsts.push(first_return(body(f)))?;
        funcs = rest;
    }
    Ok(firsts)
}
