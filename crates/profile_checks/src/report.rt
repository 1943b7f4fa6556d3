//! What is reported of an admitted module.
ghost use Rattle.std.specs.Prelude.{IfOk};
ghost use Rattle.finding_lines.specs.Lines.{ArePlaces, HavePlaces};
ghost use Rattle.profile_checks.specs.Checks.{ViolatesAdaptiveProfile, ViolatesBaseProfile};
ghost use Rattle.profile_checks.specs.Reports.{IsReport, Tells, adaptive_letter, base_letter};

use crate::checks::{check_adaptive, check_base};
use admission::Checked;
use finding_lines::{adaptive_findings_have_places, base_findings_have_places, findings_text};
use ir_module::Places;
use ir_values::{Bytes, Memory};
use profile_rules::{Findings, Form};
use std::alloc::Global;

/// Whether a module keeps the rules of a profile, and the text that says so or tells the findings.
#[derive(Debug, Drop)]
pub struct Report {
    pub clean: bool,
    pub text: Bytes,
}

/// The report of these findings, whose spots have places.
fn tell_report(
    alloc: Global,
    letter: u8,
    places: &Places,
    found: &Findings,
) -> Result<Report, Memory>
    requires { HavePlaces places.now found.now }
    ensures { IfOk result (Tells letter places.now found.now) }
{
    Ok(Report {
        clean: found.is_empty(),
        text: findings_text(alloc, letter, places, found.as_slice())?,
    })
}

/// What is reported of the Base Profile in this form, with the places of all parts of the module. The only error is want
/// of memory.
pub fn report_base(
    alloc: Global,
    c: &Checked,
    places: &Places,
    form: Form,
) -> Result<Report, Memory>
    requires { ArePlaces c.now.tree places.now }
    ensures { IfOk result (IsReport base_letter places.now (ViolatesBaseProfile form c.now.tree)) }
{
    let found = check_base(alloc, c, form)?;
    base_findings_have_places();
    tell_report(alloc, b'B', places, &found)
}

/// What is reported of the Adaptive Profile, with the places of all parts of the module. The only error is want of memory.
pub fn report_adaptive(alloc: Global, c: &Checked, places: &Places) -> Result<Report, Memory>
    requires { ArePlaces c.now.tree places.now }
    ensures { IfOk result (IsReport adaptive_letter places.now (ViolatesAdaptiveProfile c.now.tree)) }
{
    let found = check_adaptive(alloc, c)?;
    adaptive_findings_have_places();
    tell_report(alloc, b'A', places, &found)
}
