//! Allocations of qubits, and releases (QIR specification, 'Runtime Functions').
ghost use Rattle.std.specs.Prelude.{◌≡◌, ◌++◌, IfOk};
ghost use Rattle.static_steps.specs.Results as spec;
ghost use Rattle.step_parts.specs.code.Scenes.{at};

use ir_values::{Cause, Copies, LocalId, Memory, Seq, Value};
use kept_items::{Kind, Val};
use static_steps::Turn;
use std::alloc::Global;
use step_parts::Scene;

/// The next allocation, which is held. [`Memory`] comes also where a `u64` can't count it.
pub fn allocate(s: &Scene<'_>, x: Option<LocalId>) -> Result<Turn, Memory>
    ensures { IfOk result (λ turn. turn ≡ spec.alloc_turn (at s.now) x) }
{
    let number = s.given.allocated;
    let allocated = number.checked_add(1).ok_or(Memory)?;
    let mut held = s.given.held.copy(s.alloc)?;
    held.push(number)?;
    let u = s.bound(x, Val::Known(Value::Alloc(number)))?;
    s.goes(u.with_allocated(allocated).with_held(held))
}

/// The allocations held, without one.
fn without(alloc: Global, held: &[u64], j: u64) -> Result<Seq<u64>, Memory>
    ensures { IfOk result (λ r. r ≡ spec.without held.now j) }
{
    let mut out = Seq::new(alloc);
    let mut rest = held;
    while let [i, tail @ ..] = rest {
        if *i != j {
            out.push(*i)?;
        }
        rest = tail;
    }
    Ok(out)
}

fn release_allocation(s: &Scene<'_>, j: u64) -> Result<Turn, Memory>
    ensures { IfOk result (λ turn. turn ≡ spec.releases_known (at s.now) (Value.Alloc j)) }
{
    if s.given.holds(j) {
        let held = without(s.alloc, s.given.held.as_slice(), j)?;
        s.goes(s.passed()?.with_held(held))
    } else {
        Ok(Turn::Bad(Kind::Traps(Cause::Released)))
    }
}

fn release_known(s: &Scene<'_>, a: &Value) -> Result<Turn, Memory>
    ensures { IfOk result (λ turn. turn ≡ spec.releases_known (at s.now) a.now) }
{
    match a {
        Value::Id(_) => Ok(Turn::Bad(Kind::Traps(Cause::BadRelease))),
        Value::Alloc(j) => release_allocation(s, *j),
        _ => Ok(Turn::Lost),
    }
}

/// The release of a qubit, the only argument.
pub fn release(s: &Scene<'_>, vals: &[Val]) -> Result<Turn, Memory>
    ensures { IfOk result (λ turn. turn ≡ spec.release_turn (at s.now) vals.now) }
{
    match vals {
        [Val::Known(v)] => release_known(s, v),
        _ => Ok(Turn::Lost),
    }
}
