//! The findings of both profiles in an admitted module.
ghost use Rattle.std.specs.Prelude.{IfOk};
ghost use Rattle.profile_checks.specs.Checks.{ViolatesAdaptiveProfile, ViolatesBaseProfile};
ghost use Rattle.profile_rules.specs.Findings.{AreFindings};

use admission::Checked;
use ir_values::Memory;
use profile_rules::{Findings, Form};
use std::alloc::Global;

/// The violations of the Base Profile in this form: each spot with the number of a rule that is broken there, in the order
/// of spots and then of rules, each once. The only error is want of memory.
pub fn check_base(alloc: Global, c: &Checked, form: Form) -> Result<Findings, Memory>
    ensures { IfOk result (AreFindings (ViolatesBaseProfile form c.now.tree)) }
{
    base_profile::base(alloc, c.module(), c.entry(), form)
}

/// The violations of the Adaptive Profile, in the same way.
pub fn check_adaptive(alloc: Global, c: &Checked) -> Result<Findings, Memory>
    ensures { IfOk result (AreFindings (ViolatesAdaptiveProfile c.now.tree)) }
{
    adaptive_profile::adaptive(alloc, c.module(), c.entry())
}
