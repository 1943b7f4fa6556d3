//! Calls, and one instruction after the other.
ghost use Rattle.std.specs.Prelude.{◌≡◌, ◌+◌, ◌<◌, ◌≤◌, ◌^◌, [], IfOk, OnErr, map, slice_get};
ghost use Rattle.ir_module.specs.Classes.{class_of_function};
ghost use Rattle.ir_module.specs.Operands.{callee_operand};
ghost use Rattle.ir_module.specs.declared.tree.Module.{Module};
ghost use Rattle.ir_module.specs.declared.tree.InstKind.TheVariants as kind;
ghost use Rattle.ir_values.specs.declared.ty.Ty.{Ty as AnyTy};
ghost use Rattle.machine_frames.specs.code.Apt as apt;
ghost use Rattle.qir_machine.specs.Heard.{Heard};
ghost use Rattle.qir_machine.specs.code.Machines.{Does, called_by};
ghost use Rattle.qir_meaning.specs.State.{value_of};

use crate::classes::Classes;
use crate::machine::Machine;
use backend_api::Backend;
use ir_module::{Callee, Function, Inst, InstKind, Module, Operand};
use ir_values::{Cause, Class, FuncId, LocalId, Memory, Ty, Value};
use machine_frames::{Env, Flow, Values, block_in, value_at, values_of};
use std::alloc::Global;

/// What a call calls.
#[derive(Clone, Copy)]
pub enum Called {
    Func(FuncId),
    /// It has no value.
    Unbound,
    /// It is no function.
    Lost,
}

/// What a call calls.
fn callee_value(env: &Env, callee: Callee) -> Called
    ensures { result ≡ called_by (value_of env.now (callee_operand callee)) }
{
    match callee {
        Callee::Func(number) => Called::Func(number),
        Callee::Local(x) => match value_at(env, x) {
            Some(Value::Func(number)) => Called::Func(*number),
            Some(_) => Called::Lost,
            None => Called::Unbound,
        },
    }
}

impl Machine {
    /// A call of a declared function, if it has a class.
    fn declared_if<B: Backend>(
        &mut self,
        alloc: Global,
        backend: &mut B,
        x: Option<LocalId>,
        class: Option<Class>,
        function: &Function,
        types: &[(Ty, Operand)],
        values: &Values,
    ) -> Result<Flow, Memory>
        requires place { self.old.frames.at.index + 1 < 2 ^ 64 }
        requires room { self.old.measured + 1 < 2 ^ 64 }
        ensures does { IfOk result (λ flow. (m : Module) → Does self.old self.new flow
            (B.state backend.old) (B.state backend.new) (λ st. apt.of_class m self.old.frames.at
            self.old.frames.env st x function.now class (map (λ a. a.0) types.now) values.now)) }
        ensures memory { OnErr result (Heard (B.state backend.old) (B.state backend.new) []) }
        ensures measured { self.new.measured ≤ self.old.measured + 1 }
    {
        match class {
            Some(class) => {
                let name = function.name.text();
                self.declared(alloc, backend, x, class, name, types, values.as_slice())
            }
            None => Ok(Flow::Lost),
        }
    }

    /// A call of a function of the module.
    fn call_function<B: Backend>(
        &mut self,
        alloc: Global,
        m: &Module,
        classes: &Classes,
        backend: &mut B,
        x: Option<LocalId>,
        number: FuncId,
        types: &[(Ty, Operand)],
        values: Values,
    ) -> Result<Flow, Memory>
        requires place { self.old.frames.at.index + 1 < 2 ^ 64 }
        requires room { self.old.measured + 1 < 2 ^ 64 }
        requires classes { classes.now ≡ map class_of_function m.now.funcs }
        ensures does { IfOk result (λ flow. Does self.old self.new flow (B.state backend.old)
            (B.state backend.new) (λ st. apt.calls_apt m.now self.old.frames.at
            self.old.frames.env st x number (slice_get m.now.funcs number.0)
            (map (λ a. a.0) types.now) values)) }
        ensures memory { OnErr result (Heard (B.state backend.old) (B.state backend.new) []) }
        ensures measured { self.new.measured ≤ self.old.measured + 1 }
    {
        let Some(function) = m.funcs.as_slice().get(number.0 as usize) else {
            return Ok(Flow::Lost);
        };
        match &function.blocks {
            Some(_) => self.frames.enter(alloc, x, number, function, values),
            None => match classes.as_slice().get(number.0 as usize) {
                Some(class) => {
                    self.declared_if(alloc, backend, x, *class, function, types, &values)
                }
                None => Ok(Flow::Lost),
            },
        }
    }

    /// A call.
    fn call<B: Backend>(
        &mut self,
        alloc: Global,
        m: &Module,
        classes: &Classes,
        backend: &mut B,
        x: Option<LocalId>,
        callee: Callee,
        types: &[(Ty, Operand)],
    ) -> Result<Flow, Memory>
        requires place { self.old.frames.at.index + 1 < 2 ^ 64 }
        requires room { self.old.measured + 1 < 2 ^ 64 }
        requires classes { classes.now ≡ map class_of_function m.now.funcs }
        ensures does { IfOk result (λ flow. (ret : AnyTy) → Does self.old self.new flow
            (B.state backend.old) (B.state backend.new) (λ st. apt.does_apt m.now
            self.old.frames.at self.old.frames.env st x (kind.Call ret callee types.now))) }
        ensures memory { OnErr result (Heard (B.state backend.old) (B.state backend.new) []) }
        ensures measured { self.new.measured ≤ self.old.measured + 1 }
    {
        let called = callee_value(&self.frames.env, callee);
        match values_of(alloc, &self.frames.env, types)? {
            Some(values) => match called {
                Called::Func(number) => {
                    self.call_function(alloc, m, classes, backend, x, number, types, values)
                }
                Called::Unbound => Ok(Flow::traps(Cause::Unbound)),
                Called::Lost => Ok(Flow::Lost),
            },
            None => Ok(Flow::traps(Cause::Unbound)),
        }
    }

    /// An instruction.
    fn instruction<B: Backend>(
        &mut self,
        alloc: Global,
        m: &Module,
        classes: &Classes,
        backend: &mut B,
        inst: &Inst,
    ) -> Result<Flow, Memory>
        requires place { self.old.frames.at.index + 1 < 2 ^ 64 }
        requires room { self.old.measured + 1 < 2 ^ 64 }
        requires classes { classes.now ≡ map class_of_function m.now.funcs }
        ensures does { IfOk result (λ flow. Does self.old self.new flow (B.state backend.old)
            (B.state backend.new) (λ st. apt.does_apt m.now self.old.frames.at
            self.old.frames.env st inst.now.result inst.now.what)) }
        ensures memory { OnErr result (Heard (B.state backend.old) (B.state backend.new) []) }
        ensures measured { self.new.measured ≤ self.old.measured + 1 }
    {
        match &inst.what {
            InstKind::Call(_, callee, args) => {
                let types = args.as_slice();
                self.call(alloc, m, classes, backend, inst.result, *callee, types)
            }
            _ => self.frames.compute(alloc, inst.result, &inst.what),
        }
    }

    /// The next instruction or terminator.
    pub(crate) fn advance<B: Backend>(
        &mut self,
        alloc: Global,
        m: &Module,
        classes: &Classes,
        backend: &mut B,
    ) -> Result<Flow, Memory>
        requires room { self.old.measured + 1 < 2 ^ 64 }
        requires classes { classes.now ≡ map class_of_function m.now.funcs }
        ensures does { IfOk result (λ flow. Does self.old self.new flow (B.state backend.old)
            (B.state backend.new) (λ st. apt.move_apt m.now self.old.frames.at
            self.old.frames.env st)) }
        ensures memory { OnErr result (Heard (B.state backend.old) (B.state backend.new) []) }
        ensures measured { self.new.measured ≤ self.old.measured + 1 }
    {
        let at = self.frames.at;
        let Some(block) = block_in(m, at.func, at.block) else {
            return Ok(Flow::Lost);
        };
        let phis = block.phis.len() as u64;
        if at.index < phis {
            return Ok(Flow::Lost);
        }
        // No memory holds so many instructions.
        if at.index == u64::MAX {
            return Err(Memory);
        }
        let index = at.index - phis;
        match block.insts.as_slice().get(index as usize) {
            Some(inst) => self.instruction(alloc, m, classes, backend, inst),
            None => {
                if index > block.insts.len() as u64 {
                    return Ok(Flow::Lost);
                }
                self.frames.end_block(alloc, m, &block.term)
            }
        }
    }
}
