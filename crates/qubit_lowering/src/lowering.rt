//! Lowering of an admitted module.
ghost use Rattle.std.specs.Prelude.{◌≤◌, length, IfErr, IfOk};
ghost use Rattle.admitted_steps.specs.Programs.{program_of};
ghost use Rattle.fused_form.specs.Fused.{AreFused};
ghost use Rattle.lowered_runs.specs.Made.{CodesFit};
ghost use Rattle.path_search.specs.Explored.{Explored};
ghost use Rattle.qubit_lowering.specs.Lowered.{IsLoweredFrom};
ghost use Rattle.residue.specs.Valid.{Valid};
ghost use Rattle.unroller.specs.Programs.{Carries, search_of};
ghost use Rattle.unroller.specs.Refusals.{IfRefused, IsRefused};

use crate::codes::codes_fit;
use crate::sources::source_residue;
use admission::Checked;
use admitted_steps::AdmittedSteps;
use fused_form::laws::lowered_parts_are_fused;
use ir_values::{Memory, Seq};
use kept_items::Target;
use residue::Residue;
use sound_lowering::laws::lowered_programs_are_valid;
use std::alloc::Global;
use unroller::{LowerStop, Node, explore};

/// All configurations that constant evaluation of the module reaches.
fn reachable(
    alloc: Global,
    checked: &Checked,
    target: Target,
    budget: u32,
) -> Result<Seq<Node>, LowerStop>
    ensures accepted { IfOk result
        (Explored (search_of (program_of checked.now target) budget) (Carries (program_of checked.now target))) }
    ensures within { IfOk result (λ nodes. length nodes ≤ budget) }
    ensures codes { IfOk result CodesFit }
    ensures refused { IfErr result (λ stop. IfRefused stop (IsRefused (program_of checked.now target) budget)) }
{
    let steps = AdmittedSteps { checked, target };
    match explore(alloc, &steps, budget) {
        Ok(nodes) => {
            codes_fit(nodes.as_slice());
            Ok(nodes)
        }
        Err(stop) => Err(stop),
    }
}

/// The lowered program of the module for a target, and how many configurations it is made of. There is one exactly where constant
/// evaluation reaches at most `budget` configurations, none is refused, and, for targets without `loops`, none leads back to a
/// path to it. Otherwise the first in path order that is not so decides ([`LowerStop::Refused`]).
/// [`LowerStop::Memory`] says nothing of the module. The lowered program is valid for its target, and its parts are as
/// long as they can be.
pub fn lower_residue(
    alloc: Global,
    checked: &Checked,
    target: Target,
    budget: u32,
) -> Result<(Residue, u32), LowerStop>
    ensures lowered { IfOk result (λ r. IsLoweredFrom checked.now target budget r.0 r.1) }
    ensures valid { budget ≤ 1000000 → IfOk result (λ r. Valid r.0 target) }
    ensures fused { IfOk result (λ r. AreFused r.0.parts) }
    ensures refused { IfErr result (λ stop. IfRefused stop (IsRefused (program_of checked.now target) budget)) }
{
    lowered_programs_are_valid();
    lowered_parts_are_fused();
    let _module = checked.module();
    match reachable(alloc, checked, target, budget) {
        Ok(nodes) => match source_residue(alloc, checked, target, &nodes) {
            Ok(residue) => Ok((residue, nodes.len() as u32)),
            Err(Memory) => Err(LowerStop::Memory),
        },
        Err(stop) => Err(stop),
    }
}
