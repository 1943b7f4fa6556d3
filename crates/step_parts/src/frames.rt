//! Frames that wait, as the configurations between steps have them.
ghost use Rattle.std.specs.Prelude.{◌≡◌, ◌++◌, [], IfOk, OnOk};
ghost use Rattle.static_steps.specs.Works as works;
ghost use Rattle.step_parts.specs.code.Frames.{counted, opened_over, over, waiting_numbers};

use crate::counts::count_frames;
use crate::names::{number, push_numbers, shape};
use ir_values::{Copies, Memory, Seq};
use kept_items::{Dyn, Dyns};
use static_steps::{Frame, WorkFrame};
use std::alloc::Global;

/// A frame that waits over these, its Dynamic names numbered. [`Memory`] comes also where a `u64`
/// can't count them.
pub fn open_frame(alloc: Global, f: &Frame, below: &[Frame]) -> Result<WorkFrame, Memory>
    ensures { IfOk result (λ r. r ≡ opened_over below.now f.now) }
{
    let first = count_frames(below)?;
    Ok(WorkFrame {
        at: f.at,
        names: number(alloc, first, f.names.as_slice())?,
    })
}

/// Adds the numbers from 0 on, so many of them.
fn push_counted(out: &mut Dyns, count: u64) -> Result<(), Memory>
    ensures { OnOk result (out.new ≡ out.old ++ counted 0 count) }
{
    let mut n: u64 = 0;
    while n < count {
        out.push(Dyn(n))?;
        n += 1;
    }
    Ok(())
}

fn push_waiting(out: &mut Dyns, waiting: &Option<WorkFrame>) -> Result<(), Memory>
    ensures { OnOk result (out.new ≡ out.old ++ waiting_numbers waiting.now) }
{
    match waiting {
        Some(f) => push_numbers(out, f.names.as_slice()),
        None => Ok(()),
    }
}

/// Adds the numbers of the Dynamic names of frames that wait.
#[tactic(auto, using(crate::proofs::Packs::below_all))]
pub(crate) fn push_below(
    out: &mut Dyns,
    waiting: &Option<WorkFrame>,
    below: &[Frame],
) -> Result<(), Memory>
    ensures { OnOk result (out.new ≡ out.old ++ works.frame_numbers (over waiting.now (works.opened_frames below.now))) }
{
    push_counted(out, count_frames(below)?)?;
    push_waiting(out, waiting)?;
    Ok(())
}

fn shape_waiting(alloc: Global, waiting: &Option<WorkFrame>) -> Result<Seq<Frame>, Memory>
    ensures { IfOk result (λ r. r ≡ works.shaped_frames (over waiting.now [])) }
{
    let mut out = Seq::new(alloc);
    if let Some(f) = waiting {
        out.push(Frame {
            at: f.at,
            names: shape(alloc, f.names.as_slice())?,
        })?;
    }
    Ok(out)
}

fn push_frames(alloc: Global, out: &mut Seq<Frame>, frames: &[Frame]) -> Result<(), Memory>
    ensures { OnOk result (out.new ≡ out.old ++ frames.now) }
{
    let mut rest = frames;
    while let [f, tail @ ..] = rest {
        out.push(f.copy(alloc)?)?;
        rest = tail;
    }
    Ok(())
}

/// The frames that wait, without the numbers of the Dynamic names.
#[tactic(auto, using(crate::proofs::Packs::frames_back, crate::proofs::Packs::over_shaped))]
pub(crate) fn shape_below(
    alloc: Global,
    waiting: &Option<WorkFrame>,
    below: &[Frame],
) -> Result<Seq<Frame>, Memory>
    ensures { IfOk result (λ r. r ≡ works.shaped_frames (over waiting.now (works.opened_frames below.now))) }
{
    let mut out = shape_waiting(alloc, waiting)?;
    push_frames(alloc, &mut out, below)?;
    Ok(out)
}
