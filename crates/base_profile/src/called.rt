//! Which functions the entry calls.
ghost use Rattle.std.specs.Prelude.{◌≡◌, true, false, map, replicate, slice_set, IfOk};
ghost use Rattle.ir_module.specs.Tree.{blocks_of};
ghost use Rattle.profile_rules.specs.Calls.{call_of_kind, is_irreversible};
ghost use Rattle.base_profile.specs.code.Called as spec;

use findings::call_of;
use ir_module::{Block, Callee, Function, Inst};
use ir_values::{Memory, Seq};
use std::alloc::Global;

#[tactic(auto, using(crate::proofs::Lists::set_past))]
fn mark_number(on: &mut Seq<bool>, g: usize)
    ensures { on.new ≡ slice_set on.old g true }
{
    if g < on.len() {
        on.set(g, true);
    }
}

fn mark_callee(on: &mut Seq<bool>, callee: Callee)
    ensures { on.new ≡ spec.mark_callee on.old callee }
{
    match callee {
        Callee::Func(g) => mark_number(on, g.0 as usize),
        Callee::Local(_) => (),
    }
}

fn mark(on: &mut Seq<bool>, inst: &Inst)
    ensures { on.new ≡ spec.mark_call on.old (call_of_kind inst.now.what) }
{
    match call_of(inst) {
        Some(call) => mark_callee(on, call.callee),
        None => (),
    }
}

fn mark_insts(on: &mut Seq<bool>, mut insts: &[Inst])
    ensures { on.new ≡ spec.mark_insts on.old insts.entry.now }
{
    while let [inst, rest @ ..] = insts {
        mark(on, inst);
        insts = rest;
    }
}

fn mark_blocks(on: &mut Seq<bool>, mut blocks: &[Block])
    ensures { on.new ≡ spec.mark_blocks on.old blocks.entry.now }
{
    while let [block, rest @ ..] = blocks {
        mark_insts(on, block.insts.as_slice());
        blocks = rest;
    }
}

fn mark_body(on: &mut Seq<bool>, f: &Function)
    ensures { on.new ≡ spec.mark_blocks on.old (blocks_of f.now) }
{
    match &f.blocks {
        Some(blocks) => mark_blocks(on, blocks.as_slice()),
        None => (),
    }
}

fn none(alloc: Global, count: usize) -> Result<Seq<bool>, Memory>
    ensures { IfOk result (λ on. on ≡ replicate count false) }
{
    Ok(Seq::from_vec(vec![in alloc; false; count]?))
}

/// Of each of so many functions whether this one calls it by its name.
pub(crate) fn called(alloc: Global, count: usize, f: &Function) -> Result<Seq<bool>, Memory>
    ensures { IfOk result (spec.TellsCalled f.now count) }
{
    let mut on = none(alloc, count)?;
    mark_body(&mut on, f);
    Ok(on)
}

/// Whether the declaration of the function says that it can't be undone.
pub(crate) fn is_irreversible(f: &Function) -> bool
    ensures { result ≡ is_irreversible f.now }
{
    f.attribute(b"irreversible").is_some()
}

/// Of each function whether its declaration says that it can't be undone.
pub(crate) fn irreversible(alloc: Global, mut funcs: &[Function]) -> Result<Seq<bool>, Memory>
    ensures { IfOk result (λ marks. marks ≡ map is_irreversible funcs.entry.now) }
{
    let mut marks = Seq::new(alloc);
    while let [f, rest @ ..] = funcs {
        marks.push(is_irreversible(f))?;
        funcs = rest;
    }
    Ok(marks)
}
