//! Terminators, and edges between blocks.
ghost use Rattle.std.specs.Prelude.{◌≡◌, IfOk};
ghost use Rattle.std.specs.Option.{option_map};
ghost use Rattle.machine_frames.specs.Frames.{Moves};
ghost use Rattle.machine_frames.specs.code.Lists.{put_all, taken};
ghost use Rattle.ir_module.specs.declared.tree.Module.{Module};
ghost use Rattle.ir_values.specs.declared.ty.Ty.{Ty as AnyTy};
ghost use Rattle.qir_meaning.specs.Moves as spec;

use crate::flow::Flow;
use crate::frames::Frames;
use crate::values::{Env, copy_of, is_one, put, value_of};
use ir_module::{Block, Cases, Module, Operand, Phi, Point, Term};
use ir_values::{BlockId, Cause, FuncId, Int, Memory, Value};
use std::alloc::Global;

/// The block of a function with these numbers, if there is one.
pub fn block_in(m: &Module, f: FuncId, b: BlockId) -> Option<&Block>
    ensures { option_map (λ block. block.now) result ≡ spec.block_in m.now f b }
{
    match m.funcs.as_slice().get(f.0 as usize) {
        Some(function) => match &function.blocks {
            Some(blocks) => blocks.as_slice().get(b.0 as usize),
            None => None,
        },
        None => None,
    }
}

/// The operand that a phi takes from a block.
fn entry_for(mut entries: &[(Operand, BlockId)], from: BlockId) -> Option<&Operand>
    ensures { option_map (λ a. a.now) result ≡ spec.entry_for entries.entry.now from }
{
    while let [entry, rest @ ..] = entries {
        if entry.1.0 == from.0 {
            return Some(&entry.0);
        }
        entries = rest;
    }
    None
}

/// The values that phis take, in order, if each has an entry for the edge.
fn phi_values(
    alloc: Global,
    mut phis: &[Phi],
    from: BlockId,
    env: &Env,
) -> Result<Option<Env>, Memory>
    ensures { IfOk result (λ values. values ≡ taken phis.entry.now from env.now) }
{
    let mut values = Env::new(alloc);
    while let [phi, rest @ ..] = phis {
        match entry_for(phi.entries.as_slice(), from) {
            Some(operand) => values.push(copy_of(alloc, env, operand)?)?,
            None => return Ok(None),
        }
        phis = rest;
    }
    Ok(Some(values))
}

/// Gives the results of phis these values.
fn put_values(env: &mut Env, mut phis: &[Phi], values: Env)
    ensures { env.new ≡ put_all phis.entry.now values env.old }
{
    for value in values.into_vec() {
        let [phi, rest @ ..] = phis else {
            return;
        };
        put(env, phi.result, value);
        phis = rest;
    }
}

/// The block that a switch leads to.
fn target_of(i: Int, mut cases: &[(Int, BlockId)], default: BlockId) -> BlockId
    ensures { result ≡ spec.target_of i cases.entry.now default }
{
    while let [case, rest @ ..] = cases {
        if case.0.bits() == i.bits() {
            return case.1;
        }
        cases = rest;
    }
    default
}

impl Frames {
    /// Goes along an edge to a block, whose phis take their values together.
    fn jump(&mut self, alloc: Global, m: &Module, to: BlockId) -> Result<Flow, Memory>
        ensures { IfOk result (λ flow. Moves self.old self.new flow
            (λ st. spec.jump m.now self.old.at self.old.env st to)) }
    {
        let Some(block) = block_in(m, self.at.func, to) else {
            return Ok(Flow::Lost);
        };
        let phis = block.phis.as_slice();
        let Some(values) = phi_values(alloc, phis, self.at.block, &self.env)? else {
            return Ok(Flow::Lost);
        };
        put_values(&mut self.env, phis, values);
        self.at = Point {
            func: self.at.func,
            block: to,
            index: phis.len() as u64,
        };
        Ok(Flow::Goes)
    }

    /// A conditional branch.
    fn branch(
        &mut self,
        alloc: Global,
        m: &Module,
        condition: &Operand,
        on_true: BlockId,
        on_false: BlockId,
    ) -> Result<Flow, Memory>
        ensures { IfOk result (λ flow. Moves self.old self.new flow (λ st.
            spec.ends m.now self.old.at self.old.env st
            (Term.CondBr condition.now on_true on_false))) }
    {
        match value_of(&self.env, condition) {
            None => Ok(Flow::traps(Cause::Unbound)),
            Some(Value::Int(i)) => {
                let to = if is_one(*i) { on_true } else { on_false };
                self.jump(alloc, m, to)
            }
            Some(_) => Ok(Flow::Lost),
        }
    }

    /// A switch.
    fn switch(
        &mut self,
        alloc: Global,
        m: &Module,
        operand: &Operand,
        default: BlockId,
        cases: &Cases,
    ) -> Result<Flow, Memory>
        ensures { IfOk result (λ flow. (t : AnyTy) → Moves self.old self.new flow (λ st.
            spec.ends m.now self.old.at self.old.env st
            (Term.Switch t operand.now default cases.now))) }
    {
        match value_of(&self.env, operand) {
            None => Ok(Flow::traps(Cause::Unbound)),
            Some(Value::Int(i)) => {
                let to = target_of(*i, cases.as_slice(), default);
                self.jump(alloc, m, to)
            }
            Some(_) => Ok(Flow::Lost),
        }
    }

    /// A return of a value.
    fn return_value(&mut self, alloc: Global, operand: &Operand) -> Result<Flow, Memory>
        ensures { IfOk result (λ flow. (m : Module) (t : AnyTy) → Moves self.old self.new flow
            (λ st. spec.ends m self.old.at self.old.env st (Term.Ret t operand.now))) }
    {
        match copy_of(alloc, &self.env, operand)? {
            Some(value) => Ok(self.give_back(Some(value))),
            None => Ok(Flow::traps(Cause::Unbound)),
        }
    }

    /// The terminator of a block.
    pub fn end_block(&mut self, alloc: Global, m: &Module, term: &Term) -> Result<Flow, Memory>
        ensures { IfOk result (λ flow. Moves self.old self.new flow
            (λ st. spec.ends m.now self.old.at self.old.env st term.now)) }
    {
        match term {
            Term::RetVoid => Ok(self.give_back(None)),
            Term::Ret(_, operand) => self.return_value(alloc, operand),
            Term::Br(to) => self.jump(alloc, m, *to),
            Term::CondBr(condition, on_true, on_false) => {
                self.branch(alloc, m, condition, *on_true, *on_false)
            }
            Term::Switch(_, operand, default, cases) => {
                self.switch(alloc, m, operand, *default, cases)
            }
        }
    }
}
