//! The rules of the Base and the Adaptive Profile, and where a module breaks them.
#![tactic(auto)]

mod finding;
mod laws;

pub use finding::{Finding, Findings, Form};
pub use laws::{adaptive_lists_are_exact, base_lists_are_exact, lists_are_exact};
