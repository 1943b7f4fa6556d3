//! The command `check` of an admitted module: its report by a profile, and that there is just one.
#![tactic(auto)]

mod laws;
mod profile;

pub use laws::{reports_are_one, reports_exist};
pub use profile::{Profile, check};
