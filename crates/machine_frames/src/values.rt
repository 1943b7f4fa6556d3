//! The values of operands.
ghost use Rattle.std.specs.Prelude.{◌≡◌, IfOk, slice_get, slice_set, map};
ghost use Rattle.std.specs.Option.{option_map};
ghost use Rattle.qir_meaning.specs.Effects as effects;
ghost use Rattle.qir_meaning.specs.Runs.{bind_result};
ghost use Rattle.qir_meaning.specs.State as spec;

use ir_module::Operand;
use ir_values::{Copies, Int, LocalId, Memory, Seq, Ty, Value};
use std::alloc::Global;

/// The values of a frame's local names, by their numbers. A name may have none.
pub type Env = Seq<Option<Value>>;

/// Values, in order.
pub type Values = Seq<Value>;

/// The value of a local name, if it has one. It takes no memory.
pub fn value_at(env: &Env, x: LocalId) -> Option<&Value>
    ensures { option_map (λ v. v.now) result ≡ spec.value_at (slice_get env.now x.0) }
{
    match env.as_slice().get(x.0 as usize) {
        Some(slot) => slot.as_ref(),
        None => None,
    }
}

/// The value of an operand, if it has one. It takes no memory.
pub fn value_of<'a>(env: &'a Env, operand: &'a Operand) -> Option<&'a Value>
    ensures { option_map (λ v. v.now) result ≡ spec.value_of env.now operand.now }
{
    match operand {
        Operand::Const(value) => Some(value),
        Operand::Local(x) => value_at(env, *x),
    }
}

/// A copy of the value of an operand, if it has one.
pub fn copy_of(alloc: Global, env: &Env, operand: &Operand) -> Result<Option<Value>, Memory>
    ensures { IfOk result (λ o. o ≡ spec.value_of env.now operand.now) }
{
    match value_of(env, operand) {
        Some(value) => Ok(Some(value.copy(alloc)?)),
        None => Ok(None),
    }
}

/// Copies of the values of arguments, where each has one.
pub fn values_of(
    alloc: Global,
    env: &Env,
    mut args: &[(Ty, Operand)],
) -> Result<Option<Values>, Memory>
    ensures { IfOk result (λ o. o ≡ spec.values_of env.now (map (λ a. a.1) args.entry.now)) }
{
    let mut values = Values::new(alloc);
    while let [argument, rest @ ..] = args {
        match copy_of(alloc, env, &argument.1)? {
            Some(value) => values.push(value)?,
            None => return Ok(None),
        }
        args = rest;
    }
    Ok(Some(values))
}

/// Whether an integer is one.
pub fn is_one(i: Int) -> bool
    ensures { result ≡ effects.is_one i }
{
    i.bits() == 1
}

/// Gives a local name this value, or takes its value away.
pub(crate) fn put(env: &mut Env, x: LocalId, value: Option<Value>)
    ensures { env.new ≡ slice_set env.old x.0 value }
{
    if (x.0 as usize) < env.len() {
        env.set(x.0 as usize, value);
    }
}

/// Gives a local name, if there is one, this value.
pub(crate) fn bind(env: &mut Env, x: Option<LocalId>, value: Value)
    ensures { env.new ≡ spec.bind env.old x value }
{
    if let Some(x) = x {
        put(env, x, Some(value));
    }
}

/// Gives a local name, if there is one, the value that a call gave, if any.
pub(crate) fn bind_given(env: &mut Env, x: Option<LocalId>, value: Option<Value>)
    ensures { env.new ≡ bind_result env.old x value }
{
    if let Some(value) = value {
        bind(env, x, value);
    }
}
