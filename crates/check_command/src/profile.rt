//! The report of a module by a profile.
ghost use Rattle.std.specs.Prelude.{IfOk};
ghost use Rattle.check_command.specs.Reporting.{Reports};
ghost use Rattle.finding_lines.specs.Lines.{ArePlaces};

use admission::Checked;
use ir_module::Places;
use ir_values::Memory;
use profile_checks::{Report, report_adaptive, report_base};
use profile_rules::Form;
use std::alloc::Global;

/// The profile by which a module is checked.
#[derive(Clone, Copy, Debug, PartialEq, Eq)]
pub enum Profile {
    /// The Base Profile, in one of its forms.
    Base(Form),
    /// The Adaptive Profile.
    Adaptive,
}

/// The report of an admitted module by a profile, with the places of all parts of the module: whether it keeps all rules,
/// and the lines that tell the rules that it breaks. The only error is want of memory.
pub fn check(
    alloc: Global,
    c: &Checked,
    places: &Places,
    profile: Profile,
) -> Result<Report, Memory>
    requires { ArePlaces c.now.tree places.now }
    ensures { IfOk result (Reports profile c.now.tree places.now) }
{
    match profile {
        Profile::Base(form) => report_base(alloc, c, places, form),
        Profile::Adaptive => report_adaptive(alloc, c, places),
    }
}
