//! The summary of an admitted module.
ghost use Rattle.std.specs.Prelude.{IfErr, IfOk};
ghost use Rattle.generated_summary.specs.Summaries.{IsSummary, most_configurations, plain_adaptive};
ghost use Rattle.generated_summary.specs.Alike.{RunAlike};
ghost use Rattle.qubit_lowering.specs.Kept.{IsCounted};
ghost use Rattle.sound_lowering.specs.Programs.{IsNotLowered};
ghost use Rattle.unroller.specs.Refusals.{IfRefused};

use crate::laws::runs_are_alike;
use crate::names::Names;
use crate::run::play;
use crate::same::play_same;
use admission::Checked;
use ir_module::Module;
use ir_printer::print;
use ir_values::Memory;
use kept_items::{Caps, Target};
use qubit_lowering::lower_counted;
use std::alloc::Global;
use unroller::LowerStop;

/// The Adaptive Profile without capabilities.
const PLAIN_ADAPTIVE: Target = Target::Adaptive(Caps {
    ints: false,
    switch: false,
    returns: false,
    loops: false,
});

/// The most configurations that constant evaluation may reach.
const MOST_CONFIGURATIONS: u32 = 1_000_000;

/// The most steps of the module's run.
const MOST_STEPS: u64 = 1_000_000;

/// The most steps of the lowered module's run: four for each of the module's run, and sixteen more.
const MOST_LOWERED_STEPS: u64 = 4_000_016;

/// What the lowering of a module and its run over classical bits come to.
#[derive(Clone, Copy, Debug, PartialEq, Eq)]
pub struct Summary {
    /// The configurations that constant evaluation reaches.
    pub configurations: u32,
    /// The steps of the module's run.
    pub steps: u64,
    /// The operations that it issues.
    pub events: usize,
    /// The records that it writes.
    pub records: usize,
    /// The bytes of the lowered module's canonical text.
    pub bytes: usize,
    /// Whether the lowered module's run has the same events and end, under the naming, and the same records.
    pub same: bool,
}

/// The summary of a module and its lowered module, which is made of so many configurations.
fn summary_of(
    alloc: Global,
    checked: &Checked,
    lowered: &Module,
    configurations: u32,
) -> Result<Summary, Memory>
    requires { IsCounted checked.now.tree plain_adaptive most_configurations lowered.now configurations }
    ensures summary { IfOk result (IsSummary checked.now.tree) }
    ensures alike { IfOk result (λ _. RunAlike checked.now.tree) }
{
    runs_are_alike();
    let names = Names {
        qubits: checked.qubits(),
        results: checked.results(),
    };
    let source_run = play(alloc, checked.module(), MOST_STEPS)?;
    let lowered_run = play(alloc, lowered, MOST_LOWERED_STEPS)?;
    let text = print(alloc, lowered)?;
    Ok(Summary {
        configurations,
        steps: source_run.ended.used,
        events: source_run.bits.events().len(),
        records: source_run.ended.records.len(),
        bytes: text.len(),
        same: play_same(&names, &source_run, &lowered_run),
    })
}

/// The summary of an admitted module: it is lowered for the Adaptive Profile without capabilities within 1,000,000
/// configurations and run over classical bits, which takes at most 1,000,000 steps, and so is its lowered module.
///
/// [`LowerStop::Refused`] names the first instruction in path order that can't be lowered within the budget.
/// [`LowerStop::Memory`] says nothing of the module.
pub fn summarize(alloc: Global, checked: &Checked) -> Result<Summary, LowerStop>
    ensures summary { IfOk result (IsSummary checked.now.tree) }
    ensures alike { IfOk result (λ _. RunAlike checked.now.tree) }
    ensures refused { IfErr result (λ stop.
        IfRefused stop (IsNotLowered checked.now.tree plain_adaptive most_configurations)) }
{
    let (lowered, configurations) = lower_counted(
        alloc,
        checked,
        PLAIN_ADAPTIVE,
        MOST_CONFIGURATIONS,
    )?;
    match summary_of(alloc, checked, &lowered, configurations) {
        Ok(summary) => Ok(summary),
        Err(Memory) => Err(LowerStop::Memory),
    }
}
