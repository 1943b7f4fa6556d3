//! Whole runs.
ghost use Rattle.std.specs.Prelude.{◌≡◌, [], IfOk, OnErr};
ghost use Rattle.ir_module.specs.Entry.{Entry, entry_of};
ghost use Rattle.backend_api.specs.declared.operation.Answer.{Answer};
ghost use Rattle.qir_machine.specs.Runs.{Broken, HasMeaning, Ran};
ghost use Rattle.qir_machine.specs.code.Machines.{Begins};

use crate::classes::classes_of;
use crate::machine::Machine;
use backend_api::Backend;
use indexmap::IndexMap;
use ir_module::Module;
use ir_values::Memory;
use ir_values::laws::class_tells_types;
use machine_frames::{Flow, Frames};
use machine_tables::Allocations;
use output_records::Records;
use qir_meaning::End;
use std::alloc::Global;
use typed_runs::admitted_modules_keep_the_invariant;

/// What a run wrote, how it ended, and how many instructions it began that aren't phis.
#[derive(Drop)]
pub struct Ended {
    pub records: Records,
    pub end: End,
    pub used: u64,
}

/// The machine before the first instruction.
fn begin(alloc: Global, m: &Module) -> Result<Machine, Memory>
    requires { HasMeaning m.now }
    ensures { IfOk result (Begins m.now) }
{
    admitted_modules_keep_the_invariant();
    let Some(entry) = m.entry() else {
        unreachable!();
    };
    let frames = Frames::first(alloc, entry, m.function(entry))?;
    let allocations = Allocations::new(alloc);
    let results = IndexMap::new(alloc);
    let records = Records::new(alloc);
    Ok(Machine {
        frames,
        allocations,
        results,
        measured: 0,
        records,
    })
}

/// Runs the entry of an admitted module, at most so many instructions, with the answers of the backend.
/// It has a run of the module with these answers: the records, how it ended, and how many instructions it
/// began.
///
/// - The end [`End::Asks`] has the operation that the backend refused in this call, and why.
/// - [`Memory`] comes where the machine or the backend had none. What the backend answered until then are
///   the events of a run of the module that was cut.
pub fn run_on<B: Backend>(
    alloc: Global,
    m: &Module,
    backend: &mut B,
    steps: u64,
) -> Result<Ended, Memory>
    requires { HasMeaning m.now }
    ensures ran { IfOk result (λ ended.
        Ran m.now steps ended (B.state backend.old) (B.state backend.new)) }
    ensures memory { OnErr result
        (Broken m.now steps (B.state backend.old) (B.state backend.new)) }
{
    admitted_modules_keep_the_invariant();
    class_tells_types();
    let classes = classes_of(alloc, m.funcs.as_slice())?;
    let mut machine = begin(alloc, m)?;
    for used in 0..steps {
        match machine.advance(alloc, m, &classes, backend)? {
            Flow::Goes => {}
            Flow::Ends(end) => {
                return Ok(Ended {
                    records: machine.records,
                    end,
                    used: used + 1,
                });
            }
            Flow::Lost => unreachable!(),
        }
    }
    Ok(Ended {
        records: machine.records,
        end: End::Cut,
        used: steps,
    })
}
