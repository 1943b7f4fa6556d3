//! How many names are Dynamic.
ghost use Rattle.std.specs.Prelude.{◌≡◌, ◌+◌, IfOk};
ghost use Rattle.static_steps.specs.Values.{dynamics};
ghost use Rattle.static_steps.specs.Works.{frame_dynamics};

use ir_values::{LocalId, Memory, Value};
use static_steps::Frame;

/// The number of Dynamic names. [`Memory`] comes where a `u64` can't count them.
pub(crate) fn count(names: &[(LocalId, Option<Value>)]) -> Result<u64, Memory>
    ensures { IfOk result (λ n. n ≡ dynamics names.now) }
{
    let mut n: u64 = 0;
    let mut rest = names;
    while let [e, tail @ ..] = rest {
        if e.1.is_none() {
            n = n.checked_add(1).ok_or(Memory)?;
        }
        rest = tail;
    }
    Ok(n)
}

/// The number of Dynamic names in frames that wait. [`Memory`] comes where a `u64` can't count them.
pub(crate) fn count_frames(frames: &[Frame]) -> Result<u64, Memory>
    ensures { IfOk result (λ n. n ≡ frame_dynamics frames.now) }
{
    let mut n: u64 = 0;
    let mut rest = frames;
    while let [f, tail @ ..] = rest {
        let own = count(f.names.as_slice())?;
        n = n.checked_add(own).ok_or(Memory)?;
        rest = tail;
    }
    Ok(n)
}
