//! The validators over admitted modules, and what they report.
#![tactic(auto)]

mod checks;
mod report;

pub use checks::{check_adaptive, check_base};
pub use report::{Report, report_adaptive, report_base};
