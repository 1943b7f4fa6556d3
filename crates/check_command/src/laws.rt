//! Laws of reports. Each function does nothing: what it ensures is the law.
ghost use Rattle.check_command.specs.Laws.{ReportsAreOne, ReportsExist};

use profile_rules::{adaptive_lists_are_exact, base_lists_are_exact};

/// A module with its places has at most one report by a profile.
pub fn reports_are_one()
    ensures { ReportsAreOne }
{}

/// Every module with its places has a report by every profile.
pub fn reports_exist()
    ensures { ReportsExist }
{
    base_lists_are_exact();
    adaptive_lists_are_exact();
}
