//! The command `run`.
ghost use Rattle.std.specs.Prelude.{◌≡◌, ◌≤◌, ◌<◌, [], ◌∷◌, Some, length, slice_get};
ghost use Rattle.std.specs.List.{flat_map};
ghost use Rattle.ir_module.specs.declared.tree.Function.{Function};
ghost use Rattle.qir_machine.specs.Runs.{HasMeaning};
ghost use Rattle.run_commands.specs.Shots as spec;

use crate::shot::{has_returned, run_shot};
use admission::Checked;
use ir_module::Module;
use ir_values::FuncId;
use output_lines::{Schema, ShotStop, write_head, write_shot};
use qir_ports::Sink;
use shots::{Backend, shots_exist};
use std::alloc::Global;

/// Runs a shot with a backend and writes its lines. It answers whether the entry returned.
fn tell_shot<K: Sink>(
    alloc: Global,
    m: &Module,
    entry: FuncId,
    out: &mut K,
    schema: Schema,
    steps: u64,
    backend: &Backend,
) -> Result<bool, ShotStop>
    requires meaning { HasMeaning m.now }
    requires entry { entry.0 < length m.now.funcs }
    ensures told { (f : Function) → slice_get m.now.funcs entry.0 ≡ Some f
        → spec.TellsShots (backend.now ∷ []) m.now steps (flat_map (spec.told_shot schema m.now f))
        (K.taken out.old) (K.taken out.new) (K.faults out.old) (K.faults out.new) result }
    ensures later { K.faults out.old ≤ K.faults out.new }
{
    shots_exist();
    let ran = run_shot(alloc, m, steps, backend)?;
    write_shot(alloc, out, schema, m, entry, &ran.records, &ran.last)?;
    Ok(has_returned(&ran.last))
}

/// Runs a shot with each backend and writes its lines, one shot after the other. It answers whether the entry returned
/// in each.
fn tell_shots<K: Sink>(
    alloc: Global,
    m: &Module,
    entry: FuncId,
    out: &mut K,
    schema: Schema,
    steps: u64,
    mut backends: &[Backend],
) -> Result<bool, ShotStop>
    requires meaning { HasMeaning m.now }
    requires entry { entry.0 < length m.now.funcs }
    ensures told { (f : Function) → slice_get m.now.funcs entry.0 ≡ Some f
        → spec.TellsShots backends.entry.now m.now steps (flat_map (spec.told_shot schema m.now f))
        (K.taken out.old) (K.taken out.new) (K.faults out.old) (K.faults out.new) result }
    ensures later { K.faults out.old ≤ K.faults out.new }
{
    shots_exist();
    let mut all = true;
    while let [backend, rest @ ..] = backends {
        let returned = tell_shot(alloc, m, entry, out, schema, steps, backend)?;
        all = all && returned;
        backends = rest;
    }
    Ok(all)
}

/// Runs a shot of an admitted module with each backend, each of at most so many steps, and writes the lines of each as it
/// ends, behind those of the schema. All are run, also after one that stopped. It answers whether the entry returned in
/// each.
///
/// - [`ShotStop::Write`] comes only where a write failed. Then a beginning of the lines was written.
/// - [`ShotStop::Memory`] comes where there was none for a shot or for a line. Then the first of the lines were written,
///   each whole, or none.
pub fn run<K: Sink>(
    alloc: Global,
    c: &Checked,
    out: &mut K,
    schema: Schema,
    steps: u64,
    backends: &[Backend],
) -> Result<bool, ShotStop>
    ensures told { spec.TellsRecords schema backends.now c.now.tree steps (K.taken out.old)
        (K.taken out.new) (K.faults out.old) (K.faults out.new) result }
    ensures later { K.faults out.old ≤ K.faults out.new }
{
    shots_exist();
    let m = c.module();
    let entry = c.entry();
    write_head(out, schema)?;
    tell_shots(alloc, m, entry, out, schema, steps, backends)
}
