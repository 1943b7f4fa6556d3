//! Operations, which a backend answers.
ghost use Rattle.std.specs.Prelude.{◌≡◌, ◌+◌, ◌<◌, ◌^◌, ◌≤◌, Option, ◌∷◌, ◌++◌, [], codes, count_by, IfOk, OnErr, map};
ghost use Rattle.backend_api.specs.declared.operation.Arg.TheVariants as arg;
ghost use Rattle.backend_api.specs.declared.operation.ResultRef.TheVariants as result_ref;
ghost use Rattle.backend_api.specs.Operations.{IsGate, IsMeasurement, is_result};
ghost use Rattle.ir_module.specs.declared.tree.Module.{Module};
ghost use Rattle.ir_values.specs.Calls.{qis};
ghost use Rattle.machine_frames.specs.code.Apt as apt;
ghost use Rattle.qir_machine.specs.Heard.{Heard};
ghost use Rattle.qir_machine.specs.code.Machines.{Asked, Does, EndsAsking};
ghost use Rattle.qir_meaning.specs.Effects as spec;

use crate::machine::Machine;
use backend_api::{Arg, Args, Backend, Op, ResultRef, Stop, Turned};
use ir_module::Operand;
use ir_values::{Bytes, Cause, Class, INSTRUCTION_PREFIX, LocalId, Memory, Ty, Value};
use machine_frames::Flow;
use machine_tables::{Arguments, count_results, first_result, look_at, make_room, set_bit};
use qir_meaning::{Ask, End};
use std::alloc::Global;

/// What a refused operation leads to.
fn refused(turned: Turned) -> Result<Flow, Memory>
    ensures { IfOk result (EndsAsking turned) }
{
    let Turned { op, why } = turned;
    match why {
        Stop::Unsupported => Ok(Flow::Ends(End::Asks(op, Ask::Unsupported))),
        Stop::Empty => Ok(Flow::Ends(End::Asks(op, Ask::Empty))),
        Stop::Failed => Ok(Flow::Ends(End::Asks(op, Ask::Failed))),
        Stop::Memory => Err(Memory),
    }
}

/// The operation of a name and arguments.
fn operation(alloc: Global, name: &[u8], args: Args) -> Result<Op, Memory>
    ensures { IfOk result (λ op. op ≡ spec.operation name.now args) }
{
    Ok(Op {
        name: Bytes::from_slice(alloc, name)?,
        args,
    })
}

/// The operation by which a measurement that returns a result is issued.
fn returning_operation(alloc: Global, args: Args, number: u64) -> Result<Op, Memory>
    ensures { IfOk result (λ op. op ≡ spec.operation (qis (codes "mz__body"))
        (args ++ arg.Res (result_ref.Measured number) ∷ [])) }
{
    let mut name = Bytes::from_slice(alloc, INSTRUCTION_PREFIX)?;
    name.extend_from_slice(b"mz__body")?;
    let mut args = args;
    args.push(Arg::Res(ResultRef::Measured(number)))?;
    Ok(Op { name, args })
}

impl Machine {
    /// Asks for a gate.
    fn gate<B: Backend>(&mut self, backend: &mut B, op: Op) -> Result<Flow, Memory>
        requires place { self.old.frames.at.index + 1 < 2 ^ 64 }
        requires gate { IsGate op }
        ensures does { IfOk result (λ flow. (x : Option LocalId) → Does self.old self.new flow
            (B.state backend.old) (B.state backend.new) (λ st.
            spec.gate self.old.frames.at self.old.frames.env x st op st.answers)) }
        ensures memory { OnErr result (Heard (B.state backend.old) (B.state backend.new) []) }
        ensures measured { self.new.measured ≡ self.old.measured }
    {
        match backend.gate(op) {
            Ok(()) => Ok(self.frames.go_on()),
            Err(turned) => refused(turned),
        }
    }

    /// Asks for a measurement, whose bit becomes that of its result. What ends the run is answered.
    fn measure<B: Backend>(
        &mut self,
        backend: &mut B,
        op: Op,
        r: ResultRef,
    ) -> Result<Option<Flow>, Memory>
        requires { IsMeasurement op }
        ensures asked { IfOk result (λ flow. Asked self.old self.new flow op r
            (B.state backend.old) (B.state backend.new)) }
        ensures memory { OnErr result (Heard (B.state backend.old) (B.state backend.new) []) }
        ensures measured { self.new.measured ≡ self.old.measured }
    {
        make_room(&mut self.results)?;
        match backend.measure(op) {
            Ok(bit) => {
                set_bit(&mut self.results, r, bit);
                Ok(None)
            }
            Err(turned) => Ok(Some(refused(turned)?)),
        }
    }

    /// Asks for a measurement into a result.
    fn measure_into<B: Backend>(&mut self, backend: &mut B, op: Op) -> Result<Flow, Memory>
        requires place { self.old.frames.at.index + 1 < 2 ^ 64 }
        requires measurement { IsMeasurement op }
        ensures does { IfOk result (λ flow. (x : Option LocalId) → Does self.old self.new flow
            (B.state backend.old) (B.state backend.new) (λ st. spec.measure_into
            self.old.frames.at self.old.frames.env x st op.name op.args
            (spec.first_result op.args))) }
        ensures memory { OnErr result (Heard (B.state backend.old) (B.state backend.new) []) }
        ensures measured { self.new.measured ≡ self.old.measured }
    {
        let Some(r) = first_result(op.args.as_slice()) else {
            return Ok(Flow::Lost);
        };
        match self.measure(backend, op, r)? {
            None => Ok(self.frames.go_on()),
            Some(flow) => Ok(flow),
        }
    }

    /// Asks for a measurement that returns a result.
    fn measure_returning<B: Backend>(
        &mut self,
        alloc: Global,
        backend: &mut B,
        x: Option<LocalId>,
        args: Args,
    ) -> Result<Flow, Memory>
        requires place { self.old.frames.at.index + 1 < 2 ^ 64 }
        requires room { self.old.measured + 1 < 2 ^ 64 }
        requires gate { count_by is_result args ≡ 0 }
        ensures does { IfOk result (λ flow. Does self.old self.new flow (B.state backend.old)
            (B.state backend.new) (λ st. spec.measure_returning self.old.frames.at
            self.old.frames.env x st args)) }
        ensures memory { OnErr result (Heard (B.state backend.old) (B.state backend.new) []) }
        ensures measured { self.new.measured ≤ self.old.measured + 1 }
    {
        let number = self.measured;
        let op = returning_operation(alloc, args, number)?;
        match self.measure(backend, op, ResultRef::Measured(number))? {
            None => {
                self.measured = number + 1;
                Ok(self.frames.give(x, Value::Measured(number)))
            }
            Some(flow) => Ok(flow),
        }
    }

    /// Issues an operation of a class that isn't of the runtime.
    fn issue<B: Backend>(
        &mut self,
        alloc: Global,
        backend: &mut B,
        x: Option<LocalId>,
        class: Class,
        name: &[u8],
        args: Args,
    ) -> Result<Flow, Memory>
        requires place { self.old.frames.at.index + 1 < 2 ^ 64 }
        requires room { self.old.measured + 1 < 2 ^ 64 }
        ensures does { IfOk result (λ flow. (m : Module) → Does self.old self.new flow
            (B.state backend.old) (B.state backend.new) (λ st. apt.issues m self.old.frames.at
            self.old.frames.env st x name.now class args)) }
        ensures memory { OnErr result (Heard (B.state backend.old) (B.state backend.new) []) }
        ensures measured { self.new.measured ≤ self.old.measured + 1 }
    {
        let results = count_results(args.as_slice());
        match class {
            Class::Gate => {
                if results != 0 {
                    return Ok(Flow::Lost);
                }
                let op = operation(alloc, name, args)?;
                self.gate(backend, op)
            }
            Class::Measure => {
                if results != 1 {
                    return Ok(Flow::Lost);
                }
                let op = operation(alloc, name, args)?;
                self.measure_into(backend, op)
            }
            Class::Returning => {
                if results != 0 {
                    return Ok(Flow::Lost);
                }
                self.measure_returning(alloc, backend, x, args)
            }
            _ => Ok(Flow::Lost),
        }
    }

    /// A call of a declared function that is an operation, by its class and its arguments.
    fn operate<B: Backend>(
        &mut self,
        alloc: Global,
        backend: &mut B,
        x: Option<LocalId>,
        class: Class,
        name: &[u8],
        types: &[(Ty, Operand)],
        values: &[Value],
    ) -> Result<Flow, Memory>
        requires place { self.old.frames.at.index + 1 < 2 ^ 64 }
        requires room { self.old.measured + 1 < 2 ^ 64 }
        ensures does { IfOk result (λ flow. (m : Module) → Does self.old self.new flow
            (B.state backend.old) (B.state backend.new) (λ st. spec.arguments st
            (map (λ a. a.0) types.now) values.now (apt.issues m self.old.frames.at
            self.old.frames.env st x name.now class))) }
        ensures memory { OnErr result (Heard (B.state backend.old) (B.state backend.new) []) }
        ensures measured { self.new.measured ≤ self.old.measured + 1 }
    {
        match look_at(alloc, &self.allocations, types, values)? {
            Arguments::Are(args) => self.issue(alloc, backend, x, class, name, args),
            Arguments::Released => Ok(Flow::traps(Cause::Released)),
            Arguments::Constant => Ok(Flow::traps(Cause::ConstResult)),
            Arguments::Lost => Ok(Flow::Lost),
        }
    }

    /// A call of a declared function.
    pub(crate) fn declared<B: Backend>(
        &mut self,
        alloc: Global,
        backend: &mut B,
        x: Option<LocalId>,
        class: Class,
        name: &[u8],
        types: &[(Ty, Operand)],
        values: &[Value],
    ) -> Result<Flow, Memory>
        requires place { self.old.frames.at.index + 1 < 2 ^ 64 }
        requires room { self.old.measured + 1 < 2 ^ 64 }
        ensures does { IfOk result (λ flow. (m : Module) → Does self.old self.new flow
            (B.state backend.old) (B.state backend.new) (λ st. apt.declared_apt m
            self.old.frames.at self.old.frames.env st x name.now
            (map (λ a. a.0) types.now) class values.now)) }
        ensures memory { OnErr result (Heard (B.state backend.old) (B.state backend.new) []) }
        ensures measured { self.new.measured ≤ self.old.measured + 1 }
    {
        match class {
            Class::Gate => self.operate(alloc, backend, x, class, name, types, values),
            Class::Measure => self.operate(alloc, backend, x, class, name, types, values),
            Class::Returning => self.operate(alloc, backend, x, class, name, types, values),
            _ => self.runtime(alloc, x, class, values),
        }
    }
}
