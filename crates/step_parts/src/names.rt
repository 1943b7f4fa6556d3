//! The names of a frame within a step.
ghost use Rattle.std.specs.Prelude.{◌≡◌, ◌<◌, ◌≤◌, ◌+◌, ◌++◌, length, slice_get, slice_set, IfOk, OnOk};
ghost use Rattle.std.specs.List.{insert};
ghost use Rattle.static_steps.specs.Values as spec;
ghost use Rattle.step_parts.specs.code.Places.{place, stands_at};

use ir_values::{Copies, LocalId, Memory, Seq, Value};
use kept_items::{Dyn, Dyns, Val};
use static_steps::{Names, WorkNames};
use std::alloc::Global;

fn with_number(alloc: Global, n: u64, v: &Option<Value>) -> Result<Val, Memory>
    ensures { IfOk result (λ a. a ≡ spec.with_number n v.now) }
{
    match v {
        Some(v) => Ok(Val::Known(v.copy(alloc)?)),
        None => Ok(Val::Dynamic(Dyn(n))),
    }
}

/// The number of the next Dynamic name after one with this value.
fn next_number(n: u64, v: &Option<Value>) -> Result<u64, Memory>
    ensures { IfOk result (λ k. k ≡ n + spec.is_dynamic v.now) }
{
    match v {
        Some(_) => Ok(n),
        None => n.checked_add(1).ok_or(Memory),
    }
}

/// Names, the Dynamic ones numbered from `first` on. [`Memory`] comes also where a `u64` can't
/// count them.
pub fn number(
    alloc: Global,
    first: u64,
    names: &[(LocalId, Option<Value>)],
) -> Result<WorkNames, Memory>
    ensures { IfOk result (λ r. r ≡ spec.numbered first names.now) }
{
    let mut out = Seq::new(alloc);
    let mut n = first;
    let mut rest = names;
    while let [e, tail @ ..] = rest {
        out.push((e.0, with_number(alloc, n, &e.1)?))?;
        n = next_number(n, &e.1)?;
        rest = tail;
    }
    Ok(out)
}

/// The value of a name among names whose Dynamic ones are numbered from `first` on.
pub(crate) fn look(
    alloc: Global,
    first: u64,
    names: &[(LocalId, Option<Value>)],
    x: LocalId,
) -> Result<Option<Val>, Memory>
    ensures { IfOk result (λ o. o ≡ spec.look x (spec.numbered first names.now)) }
{
    let mut n = first;
    let mut rest = names;
    while let [e, tail @ ..] = rest {
        if e.0.0 == x.0 {
            return Ok(Some(with_number(alloc, n, &e.1)?));
        }
        n = next_number(n, &e.1)?;
        rest = tail;
    }
    Ok(None)
}

/// How many names stand before the first whose number is not below that of `x`.
fn place_of(names: &[(LocalId, Val)], x: LocalId) -> usize
    ensures place { result ≡ place x names.now }
    ensures within { result ≤ length names.now }
{
    let mut place: usize = 0;
    let mut rest = names;
    while let [e, tail @ ..] = rest {
        if x.0 <= e.0.0 {
            return place;
        }
        place += 1;
        rest = tail;
    }
    place
}

/// Whether the name at an index is `x`.
fn stands_at(names: &[(LocalId, Val)], place: usize, x: LocalId) -> bool
    ensures { result ≡ stands_at (slice_get names.now place) x }
{
    match names.get(place) {
        Some(e) => e.0.0 == x.0,
        None => false,
    }
}

fn replace(names: WorkNames, place: usize, x: LocalId, a: Val) -> WorkNames
    requires { place < length names }
    ensures { result ≡ slice_set names place (x, a) }
{
    let mut names = names;
    names.set(place, (x, a));
    names
}

fn insert(names: WorkNames, place: usize, x: LocalId, a: Val) -> Result<WorkNames, Memory>
    requires { place ≤ length names }
    ensures { IfOk result (λ r. r ≡ insert names place (x, a)) }
{
    let mut items = names.into_vec();
    items.insert(place, (x, a))?;
    Ok(Seq::from_vec(items))
}

/// The names, `x` with `a` among them.
///
/// # Cost
///
/// One pass over the names, in place.
#[tactic(auto, using(crate::proofs::Puts::put_found, crate::proofs::Puts::put_other, crate::proofs::Puts::stands_within))]
pub fn put(names: WorkNames, x: LocalId, a: Val) -> Result<WorkNames, Memory>
    ensures { IfOk result (λ r. r ≡ spec.put x a names) }
{
    let place = place_of(names.as_slice(), x);
    if stands_at(names.as_slice(), place, x) {
        Ok(replace(names, place, x, a))
    } else {
        insert(names, place, x, a)
    }
}

/// The names with the result of an instruction, if it has a name.
pub fn put_result(names: WorkNames, x: Option<LocalId>, a: Val) -> Result<WorkNames, Memory>
    ensures { IfOk result (λ r. r ≡ spec.put_result x a names) }
{
    match x {
        Some(x) => put(names, x, a),
        None => Ok(names),
    }
}

/// The names other than `x`.
pub fn drop_name(alloc: Global, names: &[(LocalId, Val)], x: LocalId) -> Result<WorkNames, Memory>
    ensures { IfOk result (λ r. r ≡ spec.drop_name x names.now) }
{
    let mut out = Seq::new(alloc);
    let mut rest = names;
    while let [e, tail @ ..] = rest {
        if e.0.0 != x.0 {
            out.push(e.copy(alloc)?)?;
        }
        rest = tail;
    }
    Ok(out)
}

/// Names without the numbers of the Dynamic ones.
pub(crate) fn shape(alloc: Global, names: &[(LocalId, Val)]) -> Result<Names, Memory>
    ensures { IfOk result (λ r. r ≡ spec.shape names.now) }
{
    let mut out = Seq::new(alloc);
    let mut rest = names;
    while let [e, tail @ ..] = rest {
        out.push((e.0, without_number(alloc, &e.1)?))?;
        rest = tail;
    }
    Ok(out)
}

pub(crate) fn without_number(alloc: Global, v: &Val) -> Result<Option<Value>, Memory>
    ensures { IfOk result (λ r. r ≡ spec.without_number v.now) }
{
    match v {
        Val::Known(v) => Ok(Some(v.copy(alloc)?)),
        Val::Dynamic(_) => Ok(None),
    }
}

/// Adds the number of a value, if it has one.
pub(crate) fn push_number(out: &mut Dyns, v: &Val) -> Result<(), Memory>
    ensures { OnOk result (out.new ≡ out.old ++ spec.number_of v.now) }
{
    match v {
        Val::Known(_) => Ok(()),
        Val::Dynamic(d) => out.push(*d),
    }
}

/// Adds the numbers of the Dynamic names.
pub(crate) fn push_numbers(out: &mut Dyns, names: &[(LocalId, Val)]) -> Result<(), Memory>
    ensures { OnOk result (out.new ≡ out.old ++ spec.numbers names.now) }
{
    let mut rest = names;
    while let [e, tail @ ..] = rest {
        push_number(out, &e.1)?;
        rest = tail;
    }
    Ok(())
}
