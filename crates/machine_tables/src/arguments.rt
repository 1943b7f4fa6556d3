//! The arguments of operations.
ghost use Rattle.std.specs.Prelude.{◌≡◌, List, IfOk, count_by, map};
ghost use Rattle.backend_api.specs.declared.operation.Arg.{Arg as Is};
ghost use Rattle.backend_api.specs.Operations as operations;
ghost use Rattle.ir_values.specs.declared.int.Width.{Width};
ghost use Rattle.ir_values.specs.declared.ty.Ty.TheVariants as ty;
ghost use Rattle.machine_tables.specs.code.Reads as spec;
ghost use Rattle.qir_meaning.specs.Effects as effects;
ghost use Rattle.qir_meaning.specs.State.{State, Move};

use crate::allocations::Allocations;
use backend_api::{Arg, Args, QubitRef, ResultRef};
use ir_module::Operand;
use ir_values::{Copies, Memory, Ty, Value};
use std::alloc::Global;

/// What an argument of an operation comes to.
#[derive(Drop)]
pub enum Argument {
    Is(Arg),
    /// It is a qubit that isn't held.
    Released,
    /// It is a constant result.
    Constant,
    /// It is no value of its type.
    Lost,
}

/// What the arguments of an operation come to: all of them, or the first that it can't have.
#[derive(Drop)]
pub enum Arguments {
    Are(Args),
    /// A qubit isn't held.
    Released,
    /// A constant result is measured into.
    Constant,
    /// There is no value of its type.
    Lost,
}

fn qubit(allocations: &Allocations, value: &Value) -> Argument
    ensures { (st : State) (go : Is → Move) → st.held ≡ allocations.now.held
        → effects.argument st ty.Qubit value.now go ≡ spec.argued_one result st go }
{
    match value {
        Value::Id(n) => Argument::Is(Arg::Qubit(QubitRef::Id(*n))),
        Value::Alloc(n) => {
            if allocations.is_held(*n) {
                Argument::Is(Arg::Qubit(QubitRef::Alloc(*n)))
            } else {
                Argument::Released
            }
        }
        _ => Argument::Lost,
    }
}

fn result_ref(value: &Value) -> Argument
    ensures { (st : State) (go : Is → Move) →
        effects.argument st ty.Res value.now go ≡ spec.argued_one result st go }
{
    match value {
        Value::Id(n) => Argument::Is(Arg::Res(ResultRef::Id(*n))),
        Value::Measured(n) => Argument::Is(Arg::Res(ResultRef::Measured(*n))),
        Value::One => Argument::Constant,
        Value::Zero => Argument::Constant,
        _ => Argument::Lost,
    }
}

fn double(alloc: Global, value: &Value) -> Result<Argument, Memory>
    ensures { IfOk result (λ a. (st : State) (go : Is → Move) →
        effects.argument st ty.Double value.now go ≡ spec.argued_one a st go) }
{
    match value {
        Value::Double(token) => Ok(Argument::Is(Arg::Double(token.copy(alloc)?))),
        _ => Ok(Argument::Lost),
    }
}

fn integer(value: &Value) -> Argument
    ensures { (w : Width) (st : State) (go : Is → Move) →
        effects.argument st (ty.Int w) value.now go ≡ spec.argued_one result st go }
{
    match value {
        Value::Int(i) => Argument::Is(Arg::Int(*i)),
        _ => Argument::Lost,
    }
}

/// An argument of this type.
fn argument_of(
    alloc: Global,
    allocations: &Allocations,
    ty: &Ty,
    value: &Value,
) -> Result<Argument, Memory>
    ensures { IfOk result (λ a. (st : State) (go : Is → Move) → st.held ≡ allocations.now.held
        → effects.argument st ty.now value.now go ≡ spec.argued_one a st go) }
{
    match ty {
        Ty::Qubit => Ok(qubit(allocations, value)),
        Ty::Res => Ok(result_ref(value)),
        Ty::Double => double(alloc, value),
        Ty::Int(_) => Ok(integer(value)),
        _ => Ok(Argument::Lost),
    }
}

/// The arguments of an operation, by their types and values, from left to right.
pub fn look_at(
    alloc: Global,
    allocations: &Allocations,
    mut types: &[(Ty, Operand)],
    mut values: &[Value],
) -> Result<Arguments, Memory>
    ensures { IfOk result (λ all. (st : State) (go : List Is → Move) → st.held ≡ allocations.now.held
        → effects.arguments st (map (λ a. a.0) types.entry.now) values.entry.now go
        ≡ spec.argued all st go) }
{
    let mut args = Args::new(alloc);
    while let Some((typed, more_types)) = types.split_first() {
        let Some((value, more_values)) = values.split_first() else {
            return Ok(Arguments::Lost);
        };
        match argument_of(alloc, allocations, &typed.0, value)? {
            Argument::Is(arg) => args.push(arg)?,
            Argument::Released => return Ok(Arguments::Released),
            Argument::Constant => return Ok(Arguments::Constant),
            Argument::Lost => return Ok(Arguments::Lost),
        }
        types = more_types;
        values = more_values;
    }
    match values {
        [] => Ok(Arguments::Are(args)),
        _ => Ok(Arguments::Lost),
    }
}

/// How many arguments are results. It takes no memory.
pub fn count_results(mut args: &[Arg]) -> usize
    ensures { result ≡ count_by operations.is_result args.entry.now }
{
    let mut count = 0;
    while let [arg, rest @ ..] = args {
        if let Arg::Res(_) = arg {
            count += 1;
        }
        args = rest;
    }
    count
}

/// The first argument that is a result. It takes no memory.
pub fn first_result(mut args: &[Arg]) -> Option<ResultRef>
    ensures { result ≡ effects.first_result args.entry.now }
{
    while let [arg, rest @ ..] = args {
        if let Arg::Res(r) = arg {
            return Some(*r);
        }
        args = rest;
    }
    None
}
