//! The lines that tell findings, and why each finding has a place in the text of its module.
#![tactic(auto)]

mod laws;
mod lines;

pub use laws::{adaptive_findings_have_places, base_findings_have_places};
pub use lines::findings_text;
