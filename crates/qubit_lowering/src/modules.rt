//! The lowered module of an admitted module.
ghost use Rattle.std.specs.Prelude.{◌≤◌, IfErr, IfOk};
ghost use Rattle.qubit_lowering.specs.Kept.{IsCounted, IsKept};
ghost use Rattle.sound_lowering.specs.Programs.{IsNotLowered};
ghost use Rattle.unroller.specs.Refusals.{IfRefused};

use crate::lowering::lower_residue;
use admission::Checked;
use ir_module::Module;
use ir_values::Memory;
use kept_items::Target;
use residue_module::to_module;
use sound_lowering::laws::lowered_modules_are_sound;
use std::alloc::Global;
use unroller::LowerStop;

/// The lowered module of an admitted module for a target, and how many configurations it is made of. There is one exactly
/// where constant evaluation reaches at most `budget` configurations, the target permits the instruction at each, and,
/// without the capability of loops, none leads back to a way to it. It passes the target's profile, and does what the module
/// does, whatever the machine answers. Otherwise [`LowerStop::Refused`] names the first instruction in path order
/// that is not so. [`LowerStop::Memory`] says nothing of the module.
pub fn lower_counted(
    alloc: Global,
    checked: &Checked,
    target: Target,
    budget: u32,
) -> Result<(Module, u32), LowerStop>
    requires { budget ≤ 1000000 }
    ensures lowered { IfOk result (λ done. IsCounted checked.now.tree target budget done.0 done.1) }
    ensures refused { IfErr result (λ stop. IfRefused stop (IsNotLowered checked.now.tree target budget)) }
{
    lowered_modules_are_sound();
    let _module = checked.module();
    match lower_residue(alloc, checked, target, budget) {
        Ok((residue, configurations)) => match to_module(alloc, &residue, target) {
            Ok(module) => Ok((module, configurations)),
            Err(Memory) => Err(LowerStop::Memory),
        },
        Err(stop) => Err(stop),
    }
}

/// The same without the number.
pub fn lower(
    alloc: Global,
    checked: &Checked,
    target: Target,
    budget: u32,
) -> Result<Module, LowerStop>
    requires { budget ≤ 1000000 }
    ensures lowered { IfOk result (IsKept checked.now.tree target budget) }
    ensures refused { IfErr result (λ stop. IfRefused stop (IsNotLowered checked.now.tree target budget)) }
{
    let (module, _) = lower_counted(alloc, checked, target, budget)?;
    Ok(module)
}
