//! Calls of functions with a body (LLVM Language Reference, 'call Instruction').
ghost use Rattle.std.specs.Prelude.{◌≡◌, ◌++◌, IfOk};
ghost use Rattle.static_steps.specs.Calls as spec;
ghost use Rattle.static_steps.specs.Settings.{goes, next_here, passed};
ghost use Rattle.static_steps.specs.Values as vals;
ghost use Rattle.step_parts.specs.code.Scenes.{at};

use ir_module::Point;
use ir_values::{BlockId, Copies, FuncId, LocalId, Memory, Seq};
use kept_items::Val;
use static_steps::{Turn, WorkFrame, WorkNames};
use std::alloc::Global;
use step_parts::{Scene, drop_name};

/// The parameters of a new frame.
fn parameters(alloc: Global, values: &[Val]) -> Result<WorkNames, Memory>
    ensures { IfOk result (λ r. r ≡ spec.parameters 0 values.now) }
{
    let mut out = Seq::new(alloc);
    let mut n: u64 = 0;
    let mut rest = values;
    while let [v, tail @ ..] = rest {
        out.push((LocalId(n), v.copy(alloc)?))?;
        n = n.checked_add(1).ok_or(Memory)?;
        rest = tail;
    }
    Ok(out)
}

/// The names of the top frame without the name of a call.
fn names_without(s: &Scene<'_>, x: Option<LocalId>) -> Result<WorkNames, Memory>
    ensures { IfOk result (λ r. r ≡ vals.drop_result x (at s.now).w.top.names) }
{
    let names = s.names()?;
    match x {
        Some(x) => drop_name(s.alloc, names.as_slice(), x),
        None => Ok(names),
    }
}

/// The frame that waits for a call.
fn waiting(s: &Scene<'_>, x: Option<LocalId>) -> Result<WorkFrame, Memory>
    ensures { IfOk result (λ f. f ≡ record {
      at = next_here (at s.now);
      names = vals.keep ((at s.now).live (next_here (at s.now))) (vals.drop_result x (at s.now).w.top.names);
    }) }
{
    let next = s.next_point()?;
    let names = names_without(s, x)?;
    Ok(WorkFrame {
        at: next,
        names: s.keep(next, names.as_slice())?,
    })
}

/// The call of a function with a body.
pub fn enter(s: &Scene<'_>, x: Option<LocalId>, g: FuncId, values: &[Val]) -> Result<Turn, Memory>
    ensures { IfOk result (λ turn. turn ≡ spec.enters (at s.now) x g values.now) }
{
    let first = Point {
        func: g,
        block: BlockId(0),
        index: 0,
    };
    let names = parameters(s.alloc, values)?;
    let waiting = waiting(s, x)?;
    s.goes(s.draft(first, names, Some(waiting), s.given.below.as_slice())?)
}

/// A call that does nothing.
pub fn pass(s: &Scene<'_>) -> Result<Turn, Memory>
    ensures { IfOk result (λ turn. turn ≡ goes (at s.now) (passed (at s.now))) }
{
    s.goes(s.passed()?)
}
