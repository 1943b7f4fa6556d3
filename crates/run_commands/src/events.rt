//! The command `trace`.
ghost use Rattle.std.specs.Prelude.{◌≤◌, [], ◌∷◌};
ghost use Rattle.std.specs.List.{flat_map};
ghost use Rattle.run_commands.specs.Shots as spec;

use crate::shot::{has_returned, run_shot};
use admission::Checked;
use output_lines::{ShotStop, write_trace};
use qir_ports::Sink;
use shots::{Backend, shots_exist};
use std::alloc::Global;

/// Runs one shot of an admitted module, of at most so many steps, and writes its events and how it ended. It answers
/// whether the entry returned.
///
/// - [`ShotStop::Write`] comes only where a write failed. Then a beginning of the lines was written.
/// - [`ShotStop::Memory`] comes where there was none for the shot or for a line. Then the first of the lines were
///   written, each whole, or none.
pub fn trace<K: Sink>(
    alloc: Global,
    c: &Checked,
    out: &mut K,
    steps: u64,
    backend: &Backend,
) -> Result<bool, ShotStop>
    ensures told { spec.TellsShots (backend.now ∷ []) c.now.tree steps (flat_map spec.told_trace)
        (K.taken out.old) (K.taken out.new) (K.faults out.old) (K.faults out.new) result }
    ensures later { K.faults out.old ≤ K.faults out.new }
{
    shots_exist();
    let ran = run_shot(alloc, c.module(), steps, backend)?;
    write_trace(alloc, out, ran.machine.events(), &ran.last)?;
    Ok(has_returned(&ran.last))
}
