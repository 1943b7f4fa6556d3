//! Which operations the static step of an admitted module issues, and how it follows the order of the Base
//! Profile.
#![tactic(auto)]

pub mod laws;
